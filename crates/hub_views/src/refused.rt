ghost use Rattle.std.specs.Prelude.{◌≡◌};
ghost use Rattle.frame_types.specs.Refusals as refusals;

use crate::views::MAX_VIEWS;
use cell_core::Numbers;
use frame_types::{Cause, Refusal};
use plan_json::{PlanCause, PlanPart};
use view_shape::MAX_SINGLES;

fn refused(code: u8, cause: Cause, at: Numbers) -> Refusal
    ensures { result ≡ record { code = code; cause = cause; at = at } }
{
    Refusal { code, cause, at }
}

/// The plan is no object of a plan's members.
pub fn plan_form() -> Refusal
    ensures { result ≡ refusals.plan_form }
{
    refused(13, Cause::PlanForm, Numbers::Zero)
}

/// A member of the plan is refused.
pub fn bad_plan(part: PlanPart, cause: PlanCause, at: Numbers) -> Refusal
    ensures { result ≡ refusals.bad_plan part cause at }
{
    refused(13, Cause::Plan(part, cause), at)
}

/// 16 views are held.
pub fn too_many_views() -> Refusal
    ensures { result ≡ refusals.too_many_views }
{
    refused(14, Cause::TooManyViews, Numbers::One(MAX_VIEWS as u64))
}

/// The session holds no view of that number.
pub fn no_view() -> Refusal
    ensures { result ≡ refusals.no_view }
{
    refused(15, Cause::NoView, Numbers::Zero)
}

/// An update of the view found no memory, at that version.
pub fn view_lost(version: u64) -> Refusal
    ensures { result ≡ refusals.view_lost version }
{
    refused(16, Cause::ViewLost, Numbers::One(version))
}

/// No shown group row has that path.
pub fn no_row() -> Refusal
    ensures { result ≡ refusals.no_row }
{
    refused(17, Cause::NoRow, Numbers::Zero)
}

/// The path is as long as the view's group columns.
pub fn not_a_group() -> Refusal
    ensures { result ≡ refusals.not_a_group }
{
    refused(18, Cause::NotAGroup, Numbers::Zero)
}

/// 4,096 other groups of the view were opened or closed one by one.
pub fn too_many_open() -> Refusal
    ensures { result ≡ refusals.too_many_open }
{
    refused(19, Cause::TooManyOpen, Numbers::One(MAX_SINGLES as u64))
}

/// The window ends before it begins.
pub fn bad_window(from: u64, to: u64) -> Refusal
    ensures { result ≡ refusals.bad_window from to }
{
    refused(20, Cause::Window, Numbers::Two(from, to))
}

pub fn memory() -> Refusal
    ensures { result ≡ refusals.memory }
{
    refused(22, Cause::Memory, Numbers::Zero)
}

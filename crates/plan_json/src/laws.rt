ghost use Rattle.std.specs.Prelude.{◌≡◌, Some};
ghost use Rattle.plan_json.specs.Plans.{RawPlanData};
ghost use Rattle.plan_json.specs.Reading.{plan_of};
ghost use Rattle.plan_json.specs.Writing.{raw_of_plan};

/// The value that a plan is written as is that plan. It does nothing, and its contract is the law.
pub fn plans_are_read_back()
    ensures { (plan : RawPlanData) → plan_of (raw_of_plan plan) ≡ Some plan }
{}

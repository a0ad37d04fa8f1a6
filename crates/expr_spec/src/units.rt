ghost use Rattle.std.specs.Prelude.{◌≡◌, option_and_then};
ghost use Rattle.expr_spec.specs.Functions.{unit_named, date_unit};

use cal_units::Unit;

/// The unit of that name, as the second argument of `bucket` writes it: `Y`, `M`, `W`, `D`, `h`, `m`
/// or `s`.
pub fn unit_named(name: &str) -> Option<Unit>
    ensures { result ≡ unit_named name.now }
{
    match name {
        "Y" => Some(Unit::Y),
        "M" => Some(Unit::M),
        "W" => Some(Unit::W),
        "D" => Some(Unit::D),
        "h" => Some(Unit::H),
        "m" => Some(Unit::Min),
        "s" => Some(Unit::S),
        _ => None,
    }
}

/// The same of the units that a date has: a year, a month, a week or a day.
pub fn date_unit_named(name: &str) -> Option<Unit>
    ensures { result ≡ option_and_then date_unit (unit_named name.now) }
{
    match unit_named(name) {
        Some(Unit::Y) => Some(Unit::Y),
        Some(Unit::M) => Some(Unit::M),
        Some(Unit::W) => Some(Unit::W),
        Some(Unit::D) => Some(Unit::D),
        _ => None,
    }
}

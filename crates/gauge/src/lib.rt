//! Worked points of the rules, shown of the definitions themselves.

#![tactic(auto)]

ghost use Rattle.std.specs.Prelude.{◌≡◌};
ghost use Rattle.gauge.specs.Gauge.{Points};

/// How many points there are; each of them holds.
pub fn shown_points() -> u32
    ensures count { result ≡ 13 }
    ensures points { Points }
{
    13
}

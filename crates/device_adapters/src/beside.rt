//! The sectors outside of a window.
ghost use Rattle.std.specs.Prelude.{None, Option};
ghost use Rattle.device_adapters.specs.Parts.{Outside};

use std::marker::Brand;

/// Names the sectors of a device that are outside of a window, for proofs that need them. A caller that needs their
/// contents afterwards passes `Brand`, and picks them in its proof.
pub trait Beside {
    ghost outside: { Option Outside };
}

impl Beside for Brand {
    ghost outside = { None };
}

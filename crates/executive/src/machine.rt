// What the steps are methods of.
ghost use Rattle.std.specs.Prelude.{◌<◌};
ghost use Rattle.executive.specs.Fits.{Fits};

use rules::State;

// A state in range, lent for one call: made where refusals 16 and 15 do not stand, so that no step has to ask for what they test.
#[derive(Drop)]
pub(crate) struct Machine<'a> {
    pub(crate) state: &'a mut State,
    ghost fits: { Fits state.now },
    ghost cycle_below: { state.now.cycle < state.now.multiple },
}

//! Laws over the definitions of texts: each is the contract of a function that does nothing, so
//! that it is proved.

ghost use Rattle.pim_world.specs.Laws.{AtMostOneIsFirst, ValidHasNone, SteadyLaw};

/// At most one line is the first invalid one, and a text has none. So which line a fault names is
/// determined.
pub fn first_invalid_line_law()
    ensures at_most_one { AtMostOneIsFirst }
    ensures valid { ValidHasNone }
{}

/// After each text the lists of the world fit together, owners are known threads, each thread has a
/// number of its own, and a thread that is on a CPU isn't off.
pub fn steady_law()
    ensures { SteadyLaw }
{}

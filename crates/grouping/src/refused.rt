// What filling a group plan answers where it refuses.
ghost use Rattle.std.specs.Prelude.{Some, codes};

use std::error::Error;
use std::fmt;

// The stations, their routes and their groups make no plan.
#[derive(Clone, Copy, Debug, PartialEq, Eq)]
pub struct NotAPlan;

impl fmt::Display for NotAPlan {
    ghost output = { λ e. Some (codes "the stations, routes and groups make no plan") };

    fn fmt<W: fmt::Write>(&self, f: &mut fmt::Formatter<W>) -> fmt::Result {
        f.write_str("the stations, routes and groups make no plan")
    }
}

impl Error for NotAPlan {}

// The words of kinds.
ghost use Rattle.std.specs.Prelude.{Some};
ghost use Rattle.row.specs.Kinds.{kind_word};

use super::rows::Kind;
use std::fmt;

// The word by which scripts and tables know the kind.
impl fmt::Display for Kind {
    ghost output = { λ kind. Some (kind_word kind) };

    fn fmt<W: fmt::Write>(&self, f: &mut fmt::Formatter<W>) -> fmt::Result {
        f.pad(match *self {
            Kind::Normal => "normal",
            Kind::Abnormal => "abnormal",
        })
    }
}

// The kinds of calls, and the numbers that name them. An enum, so that one `match` has the call of each; a table of functions would be
// taken by an index.

ghost use Rattle.std.specs.Prelude.{◌≡◌, MatchResult};

use record_line::fault::WrongLine;

#[derive(Clone, Copy, Debug, PartialEq, Eq)]
pub enum Kind {
    Grow,
    Total,
    ReadList,
    HandOut,
    Finish,
    WritePage,
    EncodeCell,
    DecodeCell,
    ReadValue,
    DeleteValue,
    Lookup,
    WriteOldPage,
    Columns,
    Rows,
}

impl TryFrom<u64> for Kind {
    ghost use Rattle.replayed.specs.Kind.{number_of, NamesNone};

    type Error = WrongLine;

    ghost try_from_gives = { λ n r. MatchResult r (λ kind. n ≡ number_of kind) (λ _. NamesNone n) };

    fn try_from(number: u64) -> Result<Kind, WrongLine> {
        match number {
            1 => Ok(Kind::Grow),
            2 => Ok(Kind::Total),
            3 => Ok(Kind::ReadList),
            4 => Ok(Kind::HandOut),
            5 => Ok(Kind::Finish),
            6 => Ok(Kind::WritePage),
            7 => Ok(Kind::EncodeCell),
            8 => Ok(Kind::DecodeCell),
            9 => Ok(Kind::ReadValue),
            10 => Ok(Kind::DeleteValue),
            11 => Ok(Kind::Lookup),
            12 => Ok(Kind::WriteOldPage),
            13 => Ok(Kind::Columns),
            14 => Ok(Kind::Rows),
            _ => Err(WrongLine),
        }
    }
}

// The leading letters decide the command.
#![tactic(auto, using(std::proofs::lemmas::Bool::Decides::nat_tests, paper::proofs::Law::if_true, paper::proofs::Law::if_false), unfolding(crate::specs::Kind::kind_of, crate::specs::Kind::bar_kind, crate::specs::Kind::filing_kind))]

ghost use Rattle.std.specs.Prelude.{◌≡◌};
ghost use Rattle.line.specs.Kind.{kind_of};

// The rows of the profile's table, and letters that have none.
#[derive(Clone, Copy, Debug, PartialEq, Eq)]
pub enum Kind {
    New,
    Finish,
    Inform,
    Ask,
    Size,
    Direction,
    Text,
    Black,
    Flip,
    White,
    Frame,
    Counting,
    Varying,
    Start,
    Recall,
    Delete,
    Print,
    Unknown,
}

// The kind of a line by its first two bytes.
pub fn kind_of(first: u8, second: u8) -> Kind
    ensures { result ≡ kind_of first second }
{
    match first {
        b'N' => Kind::New,
        b'?' => Kind::Ask,
        b'Q' => Kind::Size,
        b'Z' => Kind::Direction,
        b'A' => Kind::Text,
        b'X' => Kind::Frame,
        b'C' => Kind::Counting,
        b'V' => Kind::Varying,
        b'P' => Kind::Print,
        b'L' => match second {
            b'O' => Kind::Black,
            b'E' => Kind::Flip,
            b'W' => Kind::White,
            _ => Kind::Unknown,
        },
        b'F' => match second {
            b'E' => Kind::Finish,
            b'I' => Kind::Inform,
            b'S' => Kind::Start,
            b'R' => Kind::Recall,
            b'K' => Kind::Delete,
            _ => Kind::Unknown,
        },
        _ => Kind::Unknown,
    }
}

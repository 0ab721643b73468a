// Answers: why a call refuses its input, with the numbers of document 01's table.
#![tactic(auto)]

ghost use Rattle.std.specs.Prelude.{◌≡◌};
ghost use Rattle.answer.specs.Values.{refusal, number_of, place_of};

// Why a call refuses, in the order of document 01's table.
#[derive(Clone, Copy, PartialEq, Eq, Debug)]
pub enum Fault {
    Dimension,
    PacketSize,
    CubeSize,
    SliceLength,
    FlagValue,
    Truncated,
    HeaderCount,
    TrailingBytes,
    SectionCount,
    Capacity,
    Contradiction,
    FileLength,
    Erasure,
    Uncorrected,
    UsedCells,
}

// Why a packet is refused.
#[derive(Clone, Copy, PartialEq, Eq, Debug)]
pub enum PacketFault {
    CellIndex,
}

// A refusal: of the whole call, of a packet with its index from 0, of a line of a text with its number from 1, or of an entry of a plan with its
// offset in the file.
#[derive(Clone, Copy, PartialEq, Eq, Debug)]
pub enum Refusal {
    Plain(Fault),
    Packet(PacketFault, u64),
    Line(u64),
    Entry(u64),
}

// The number of a refusal in document 01's table. A match, since the table has gaps and requests add to it: numbers of the enum's own would have to be
// written out too.
#[tactic(auto, unfolding(crate::specs::Values::number_of, crate::specs::Values::refusal, crate::specs::Refusals::fault_number))]
pub fn number(f: Refusal) -> u64
    ensures { result ≡ number_of {A = Unit} (refusal f) }
{
    match f {
        Refusal::Plain(p) => match p {
            Fault::Dimension => 1,
            Fault::PacketSize => 2,
            Fault::CubeSize => 3,
            Fault::SliceLength => 4,
            Fault::FlagValue => 5,
            Fault::Truncated => 6,
            Fault::HeaderCount => 7,
            Fault::TrailingBytes => 8,
            Fault::SectionCount => 9,
            Fault::Capacity => 10,
            Fault::Contradiction => 13,
            Fault::FileLength => 14,
            Fault::Erasure => 15,
            Fault::Uncorrected => 16,
            Fault::UsedCells => 19,
        },
        Refusal::Packet(_, _) => 11,
        Refusal::Line(_) => 17,
        Refusal::Entry(_) => 18,
    }
}

// The place that a refusal names, the index of a packet, the number of a line or an offset; 0 where it names none. No Option: `place_of`, of which the words
// that C gets are made, has 0 there.
#[tactic(auto, unfolding(crate::specs::Values::place_of, crate::specs::Values::refusal))]
pub fn place(f: Refusal) -> u64
    ensures { result ≡ place_of {A = Unit} (refusal f) }
{
    match f {
        Refusal::Plain(_) => 0,
        Refusal::Packet(_, i) => i,
        Refusal::Line(n) => n,
        Refusal::Entry(at) => at,
    }
}

// The choice of a tree, a segment's or a journey's, by the packet number, and the most bits of a body.
ghost use Rattle.std.specs.Prelude.{◌≡◌};
ghost use Rattle.grammar.specs.link.Link.{tree_number, tree_of};

use kinds::header;

// The tree of a packet or sheet, which the packet number chooses.
#[derive(Clone, Copy, Debug, PartialEq, Eq)]
pub enum Tree {
    Segment,
    Journey,
}

// Most bits of a body: L_PACKET_ATO, which counts them, has 16 bits.
pub const MOST_BITS: usize = 65535;

// Returns the packet number of `tree`. No `From`: docs/CONTRACTS.md names this function, and `From` would only stand beside it.
pub fn number(tree: Tree) -> u32
    ensures { result ≡ tree_number tree }
{
    match tree {
        Tree::Segment => header::NidPacketAto::SEGMENT,
        Tree::Journey => header::NidPacketAto::JOURNEY,
    }
}

// Returns the tree of packet number `number`: a journey for 4, else a segment. No `From`, since a number other than 4 and 6 is lost.
pub fn tree_of(number: u32) -> Tree
    ensures { result ≡ tree_of number }
{
    if number == header::NidPacketAto::JOURNEY {
        Tree::Journey
    } else {
        Tree::Segment
    }
}

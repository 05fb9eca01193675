// The board: the header and the policy table that the store is started with.
#![tactic(auto)]

ghost use Rattle.std.specs.Prelude.{◌≡◌, ℕ};
ghost use Rattle.rules.specs.Words.{config};
ghost use Rattle.boot_board.specs.Board.{board};

use rules::Header;

// The frames of the board: 256 MiB of 4 KiB each, 32 trees. The store's words are then 32 tree words, 4 local words and 1,024 bitmap words,
// 8,352 bytes, which the loader keeps on its stack, as there is no other memory yet.
pub const FRAMES: usize = 65536;

// A smaller board, one tree: the raster does not fit it.
pub const SMALL: usize = 2048;

// The word of a pair has the kind in bits 0 and 1, the cut in 2 to 15, the low rating in 16 to 23, the high one in 24 to 31. Steal is 1.
const STEAL: u32 = 1;

// Demote is 2.
const DEMOTE: u32 = 2;

// Match is 3; here with cut 0, low 0, high 255.
const MATCH: u32 = 0xFF00_0003;

// The header: classes 0 and 1 with two locals each (a place holds the number of locals plus one), default 1.
pub fn header(frames: usize) -> Header
    ensures { config result (board frames).pairs ≡ board frames }
{
    Header {
        frames: frames,
        default: 1,
        places: [3, 3, 0, 0, 0, 0, 0, 0],
    }
}

// The policy table T: the pair (requested, target) at 8 x requested + target.
pub fn table() -> [u32; 64]
    ensures { (frames : ℕ) → result ≡ (board frames).pairs }
{
    let mut pairs = [0u32; 64];
    pairs[0] = MATCH;
    pairs[1] = DEMOTE;
    pairs[8] = STEAL;
    pairs[9] = MATCH;
    pairs
}

// The printed table of board distances (document 02, T-08): source document 000, section 3.4.3.
#![tactic(auto)]

ghost use Rattle.std.specs.Prelude.{◌≡◌};
ghost use Rattle.machine.specs.BoardTable.{printed};
ghost use Rattle.board_table.specs.Cells.{cell_of};

use machine::BoardCell;

// Its heads: speeds down, km/h.
pub const SPEEDS: [u16; 5] = [45, 60, 75, 100, 120];

// Gradients across, per mille.
pub const GRADIENTS: [i16; 7] = [15, 10, 5, 0, -5, -10, -15];

// Its retardation, mm/s2.
pub const RETARDATION: u16 = 870;

// Its distances, metres. At 60 km/h and +5 it is short: the formula gives 210.
pub const DISTANCES: [[u16; 7]; 5] = [
    [120, 120, 130, 130, 140, 140, 150],
    [190, 200, 200, 210, 220, 230, 250],
    [280, 290, 300, 320, 330, 350, 370],
    [470, 490, 510, 530, 560, 590, 620],
    [650, 680, 710, 740, 780, 820, 870],
];

// The cell of a row and a column, with its heads and its retardation; none outside the table.
pub fn printed(row: usize, column: usize) -> Option<BoardCell>
    ensures { cell_of result ≡ printed row column }
{
    if row < 5 && column < 7 {
        return Some(BoardCell {
            speed: SPEEDS[row],
            retardation: RETARDATION,
            gradient: GRADIENTS[column],
            distance: DISTANCES[row][column],
        });
    }
    None
}

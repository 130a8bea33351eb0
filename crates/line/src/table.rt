// Tables of words of five bits for codes of four.
ghost use Rattle.std.specs.Prelude.{◌≡◌};
ghost use Rattle.line.specs.Tables.{Good, ToldByT, Figures, standard_rows};

// For each code a word for counts below 0, with three ones or more, and its complement for the other counts.
pub type CodeTable = [(u8, u8); 16];

static STANDARD: CodeTable = [
    (0b11011, 0b00100),
    (0b11010, 0b00101),
    (0b11001, 0b00110),
    (0b00111, 0b11000),
    (0b10011, 0b01100),
    (0b01101, 0b10010),
    (0b01110, 0b10001),
    (0b01111, 0b10000),
    (0b01011, 0b10100),
    (0b10101, 0b01010),
    (0b10110, 0b01001),
    (0b10111, 0b01000),
    (0b11100, 0b00011),
    (0b11101, 0b00010),
    (0b11110, 0b00001),
    (0b11111, 0b00000),
];

// The standard's table: a word is its code with a 1 put in as the middle bit T, or the complement of that.
pub fn standard() -> &'static CodeTable
    ensures rows { result.now ≡ standard_rows }
    ensures good { Good result.now }
    ensures told { ToldByT result.now }
    ensures figures { Figures }
{
    &STANDARD
}

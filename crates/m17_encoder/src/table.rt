// The table of digits. A function that goes through a text takes it first: a constant is laid out anew at each use.
ghost use Rattle.m17.specs.Address.{digit_of};
ghost use Rattle.fields.specs.Table.{Table};

// The digits of the bytes from space to Z, 40 for a foreign one.
pub fn digits() -> [u8; 59]
    ensures { Table digit_of 32 59 result }
{
    DIGITS
}

const DIGITS: [u8; 59] = [
    0, // space
    40, // !
    40, // "
    40, // #
    40, // $
    40, // %
    40, // &
    40, // '
    40, // (
    40, // )
    40, // *
    40, // +
    40, // ,
    37, // -
    39, // .
    38, // /
    27, // 0
    28, // 1
    29, // 2
    30, // 3
    31, // 4
    32, // 5
    33, // 6
    34, // 7
    35, // 8
    36, // 9
    40, // :
    40, // ;
    40, // <
    40, // =
    40, // >
    40, // ?
    40, // @
    1, // A
    2, // B
    3, // C
    4, // D
    5, // E
    6, // F
    7, // G
    8, // H
    9, // I
    10, // J
    11, // K
    12, // L
    13, // M
    14, // N
    15, // O
    16, // P
    17, // Q
    18, // R
    19, // S
    20, // T
    21, // U
    22, // V
    23, // W
    24, // X
    25, // Y
    26, // Z
];

// The limits of a book and of its files. specs/Limits.antt has the same numbers for contracts.

// The most customers of a book; they are numbered from 0.
pub const MOST_CUSTOMERS: u16 = 256;

// The most days of a billing period; they are numbered from 1.
pub const MOST_DAYS: u8 = 31;

// The most subzones of a book; they are numbered from 1.
pub const MOST_SUBZONES: u8 = 32;

// The hours of a day; they are numbered from 1.
pub const HOURS_OF_DAY: u8 = 24;

// The most that a quantity (hundredths of a MWh), an amount or a pool (cents), and each of their
// limited sums may come to.
pub const MOST_AMOUNT: u32 = 2_147_483_647;

// The contributors of a book, who are numbered from 0; there is one mark for each.
pub const CONTRIBUTORS: usize = 64;

// The last number that a pass can have.
pub const LAST_PASS_NUMBER: u32 = 4_294_967_295;

// The most bytes of a unit file.
pub const MOST_FILE_BYTES: usize = 65_536;

// The most bytes of a note in a unit file.
pub const MOST_NOTE_BYTES: usize = 200;

//! The `bext` chunk of a Broadcast Wave file (EBU Tech 3285), with the time of the file's first sample, and the stamp
//! of that time for the file's name.
ghost use Rattle.std.specs.Prelude.{◌≡◌, ◌+◌, ◌*◌, ◌++◌, ◌≤◌, length};
ghost use Rattle.wav_file.specs.Bext.{
  bext_back,
  bext_front,
  date_text,
  IsBext,
  IsDateAt,
  IsStamp,
  time_text,
  two_digits,
};
ghost use Rattle.arrayvec.specs.ArrayVec.{array_vec_len};

use arrayvec::ArrayVec;
use jiff_core::civil::Date;

/// The number of sampling instants in a day.
const DAY: u64 = 4_147_200_000;

/// The number of sampling instants in an hour.
const HOUR: u64 = 172_800_000;

/// The number of sampling instants in a minute.
const MINUTE: u64 = 2_880_000;

/// The number of sampling instants in a second.
const SECOND: u64 = 48_000;

/// The last day of the calendar, 9999-12-31, counted from 1970-01-01.
const LAST_DAY: u64 = 2_932_896;

/// The octets of a `bext` chunk, or none.
pub type BextChunk = ArrayVec<u8, 610>;

/// Returns the chunk of a file whose first sample is of this time, in sampling instants since 1970 in UTC.
pub fn bext_chunk(at: u64) -> BextChunk
    ensures { IsBext at result.items }
{
    let date = date_at(at);
    let mut chunk = BextChunk::new();
    push_front(&mut chunk);
    push_date(&mut chunk, b"-", date);
    push_time(&mut chunk, b":", at % DAY);
    push_back(&mut chunk, at % DAY);
    chunk
}

/// Returns the stamp of a time, in sampling instants since 1970 in UTC, as `20261128T174501Z`.
pub fn time_stamp(at: u64) -> BextChunk
    ensures { IsStamp at result.items }
{
    let date = date_at(at);
    let mut stamp = BextChunk::new();
    push_date(&mut stamp, b"", date);
    push(&mut stamp, b"T");
    push_time(&mut stamp, b"", at % DAY);
    push(&mut stamp, b"Z");
    stamp
}

/// Returns the date of a time, in UTC.
fn date_at(at: u64) -> Date
    ensures { IsDateAt at result }
{
    let day = (at / DAY).min(LAST_DAY);
    match Date::from_unix_epoch_day(day as i64) {
        Ok(date) => date,
        // Not reached: the calendar has all days up to its last.
        Err(_) => Date::MAX,
    }
}

/// Appends the chunk's octets up to the date.
fn push_front(chunk: &mut BextChunk)
    requires { array_vec_len chunk.old + 328 ≤ 610 }
    ensures items { chunk.new.items ≡ chunk.old.items ++ bext_front }
    ensures length { array_vec_len chunk.new ≡ array_vec_len chunk.old + 328 }
{
    push(chunk, b"bext");
    push(chunk, &602_u32.to_le_bytes());
    // The description.
    push(chunk, &[0; 256]);
    // The originator, of 32 octets, and its reference, of 32.
    push(chunk, b"darbexum");
    push(chunk, &[0; 56]);
}

/// Appends the chunk's octets behind the time of day.
fn push_back(chunk: &mut BextChunk, instant: u64)
    requires { array_vec_len chunk.old + 264 ≤ 610 }
    ensures items { chunk.new.items ≡ chunk.old.items ++ bext_back instant }
    ensures length { array_vec_len chunk.new ≡ array_vec_len chunk.old + 264 }
{
    push(chunk, &instant.to_le_bytes());
    push(chunk, &1_u16.to_le_bytes());
    // The UMID, of 64 octets, and 190 that are reserved.
    push(chunk, &[0; 254]);
}

/// Appends a date, with these octets between year, month and day.
fn push_date(text: &mut BextChunk, between: &[u8], date: Date)
    requires { array_vec_len text.old + (8 + 2 * length between.now) ≤ 610 }
    ensures items { text.new.items ≡ text.old.items ++ date_text between.now date }
    ensures length { array_vec_len text.new ≡ array_vec_len text.old + (8 + 2 * length between.now) }
{
    let year = u64::from(date.year.unsigned_abs());
    push(text, &two_digits(year / 100));
    push(text, &two_digits(year));
    push(text, between);
    push(text, &two_digits(u64::from(date.month)));
    push(text, between);
    push(text, &two_digits(u64::from(date.day)));
}

/// Appends the time of day of a sampling instant since midnight, with these octets between hour, minute and second.
fn push_time(text: &mut BextChunk, between: &[u8], instant: u64)
    requires { array_vec_len text.old + (6 + 2 * length between.now) ≤ 610 }
    ensures items { text.new.items ≡ text.old.items ++ time_text between.now instant }
    ensures length { array_vec_len text.new ≡ array_vec_len text.old + (6 + 2 * length between.now) }
{
    push(text, &two_digits(instant / HOUR));
    push(text, between);
    push(text, &two_digits(instant / MINUTE % 60));
    push(text, between);
    push(text, &two_digits(instant / SECOND % 60));
}

/// Returns the last two digits of a number in ASCII.
fn two_digits(number: u64) -> [u8; 2]
    ensures { result ≡ two_digits number }
{
    [48 + (number / 10 % 10) as u8, 48 + (number % 10) as u8]
}

/// Appends octets.
fn push(text: &mut BextChunk, octets: &[u8])
    requires { array_vec_len text.old + length octets.now ≤ 610 }
    ensures items { text.new.items ≡ text.old.items ++ octets.now }
    ensures length { array_vec_len text.new ≡ array_vec_len text.old + length octets.now }
{
    // The clause above requires the space.
    let Ok(()) = text.try_extend_from_slice(octets) else {
        unreachable!()
    };
}

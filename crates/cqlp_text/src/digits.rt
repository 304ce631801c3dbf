//! Numbers as decimal digits.

ghost use Rattle.std.specs.Prelude.{◌≡◌, ◌+◌, ◌<◌, ◌≤◌, ◌/◌, ◌%◌, ◌∷◌, ◌++◌, [], decimal, drop, length, take};
ghost use Rattle.cqlp_text.specs.CellText.{digits};

/// How many decimal digits a number has at most.
pub(crate) const DECIMAL_ROOM: usize = 20;

/// What no short number reaches: one of at most eight digits is written in line.
pub(crate) const SHORT: u64 = 100_000_000;

/// The two digits of each number below 100, one after the other.
static PAIRS: [u8; 200] =
    *b"0001020304050607080910111213141516171819202122232425262728293031323334353637383940414243444546474849\
      5051525354555657585960616263646566676869707172737475767778798081828384858687888990919293949596979899";

/// Fills all room with the last digits of a number, after zeros where it has fewer.
#[inline(always)]
pub(crate) fn fill_with_digits(number: u64, room: &mut [u8])
    ensures { room.new ≡ digits (length room.old) number }
{
    let mut left = number;
    let mut at = room.len();
    while at > 0 {
        at -= 1;
        room[at] = b'0' + (left % 10) as u8;
        left /= 10;
    }
}

/// Puts a number, as decimal digits, into a buffer, and answers how many there are.
#[inline(always)]
pub(crate) fn place_number(number: u64, buffer: &mut [u8], at: usize) -> usize
    requires { at + length (decimal number) ≤ length buffer.old }
    ensures len { result ≡ length (decimal number) }
    ensures placed { buffer.new ≡ take at buffer.old ++ (decimal number ++ drop (at + result) buffer.old) }
{
    write_to_front(number, &mut buffer[at..])
}

/// Puts a number, as decimal digits, to the front of bytes, and answers how many there are.
#[inline(always)]
fn write_to_front(number: u64, bytes: &mut [u8]) -> usize
    requires { length (decimal number) ≤ length bytes.old }
    ensures len { result ≡ length (decimal number) }
    ensures written { bytes.new ≡ decimal number ++ drop result bytes.old }
{
    match bytes.first_chunk_mut::<DECIMAL_ROOM>() {
        Some(room) => write_number(number, room),
        None => write_apart(number, bytes),
    }
}

/// Puts a number, as decimal digits, to the front of bytes with no room for any other, and answers how many there are.
#[inline(never)]
fn write_apart(number: u64, bytes: &mut [u8]) -> usize
    requires { length (decimal number) ≤ length bytes.old }
    ensures len { result ≡ length (decimal number) }
    ensures written { bytes.new ≡ decimal number ++ drop result bytes.old }
{
    let mut room = [0; DECIMAL_ROOM];
    let len = write_number(number, &mut room);
    copy_to_front(&room[..len], bytes);
    len
}

/// Puts a number, as decimal digits, to the front of a room for any, and answers how many there are.
#[inline(never)]
fn write_number(number: u64, room: &mut [u8; DECIMAL_ROOM]) -> usize
    ensures len { result ≡ length (decimal number) }
    ensures written { room.new ≡ decimal number ++ drop result room.old }
{
    if number < 10_000 {
        write_short(number, room)
    } else {
        write_long(number, room)
    }
}

/// Puts a number to the front, its last eight digits behind those before them, and answers how many there are.
#[inline(never)]
fn write_long(number: u64, room: &mut [u8; DECIMAL_ROOM]) -> usize
    ensures len { result ≡ length (decimal number) }
    ensures written { room.new ≡ decimal number ++ drop result room.old }
{
    if number < 100_000_000 {
        return write_middle(number, room);
    }
    let front = number / 10_000;
    let len = write_long(front / 10_000, room);
    write_four(front % 10_000, room, len);
    write_four(number % 10_000, room, len + 4);
    len + 8
}

/// Puts a number of at most eight digits to the front, and answers how many there are.
#[inline(always)]
fn write_middle(number: u64, room: &mut [u8; DECIMAL_ROOM]) -> usize
    requires { number < 100_000_000 }
    ensures len { result ≡ length (decimal number) }
    ensures written { room.new ≡ decimal number ++ drop result room.old }
{
    if number < 10_000 {
        return write_short(number, room);
    }
    let len = write_short(number / 10_000, room);
    write_four(number % 10_000, room, len);
    len + 4
}

/// Puts a number of at most four digits to the front, and answers how many there are.
#[inline(always)]
fn write_short(number: u64, room: &mut [u8; DECIMAL_ROOM]) -> usize
    requires { number < 10_000 }
    ensures len { result ≡ length (decimal number) }
    ensures written { room.new ≡ decimal number ++ drop result room.old }
{
    if number < 100 {
        return write_front(number, room);
    }
    if number < 1_000 {
        return write_three(number, room);
    }
    write_four(number, room, 0);
    4
}

/// Puts a number of at most two digits to the front, and answers how many there are.
#[inline(always)]
fn write_front(number: u64, room: &mut [u8; DECIMAL_ROOM]) -> usize
    requires { number < 100 }
    ensures len { result ≡ length (decimal number) }
    ensures written { room.new ≡ decimal number ++ drop result room.old }
{
    if number < 10 {
        room[0] = b'0' + number as u8;
        return 1;
    }
    let [tens, ones] = pair(number);
    room[0] = tens;
    room[1] = ones;
    2
}

/// Puts a number of three digits to the front, and answers how many these are.
#[inline(always)]
fn write_three(number: u64, room: &mut [u8; DECIMAL_ROOM]) -> usize
    requires { (100 ≤ number) × (number < 1_000) }
    ensures len { result ≡ length (decimal number) }
    ensures written { room.new ≡ decimal number ++ drop result room.old }
{
    let [tens, ones] = pair(number % 100);
    room[0] = b'0' + (number / 100) as u8;
    room[1] = tens;
    room[2] = ones;
    3
}

/// Puts a number below 10,000, as four digits, into a room.
#[inline(always)]
fn write_four(number: u64, room: &mut [u8; DECIMAL_ROOM], at: usize)
    requires short { number < 10_000 }
    requires room { at + 4 ≤ 20 }
    ensures { room.new ≡ take at room.old ++ (digits 4 number ++ drop (at + 4) room.old) }
{
    let [thousands, hundreds] = pair(number / 100);
    let [tens, ones] = pair(number % 100);
    room[at..at + 4].copy_from_slice(&[thousands, hundreds, tens, ones]);
}

/// The two digits of a number below 100.
#[inline(always)]
fn pair(number: u64) -> [u8; 2]
    requires { number < 100 }
    ensures { result ≡ (48 + number / 10) ∷ (48 + number % 10) ∷ [] }
{
    let from = number as usize * 2;
    [PAIRS[from], PAIRS[from + 1]]
}

/// Puts a number, as decimal digits, into a room, in line where it is short, and answers how many there are.
#[inline(always)]
pub(crate) fn place_in_line(number: u64, at: usize, room: &mut [u8]) -> usize
    requires { at + length (decimal number) ≤ length room.old }
    ensures len { result ≡ length (decimal number) }
    ensures placed { room.new ≡ take at room.old ++ (decimal number ++ drop (at + result) room.old) }
{
    if number < SHORT {
        place_short(number, at, room)
    } else {
        place_number(number, room, at)
    }
}

/// Puts a short number, as decimal digits, into a room, and answers how many there are.
#[inline(always)]
fn place_short(number: u64, at: usize, room: &mut [u8]) -> usize
    requires few { number < 100_000_000 }
    requires room { at + length (decimal number) ≤ length room.old }
    ensures len { result ≡ length (decimal number) }
    ensures placed { room.new ≡ take at room.old ++ (decimal number ++ drop (at + result) room.old) }
{
    write_short_to_front(number, &mut room[at..])
}

/// Puts a short number, as decimal digits, to the front of bytes, and answers how many there are.
#[inline(always)]
fn write_short_to_front(number: u64, bytes: &mut [u8]) -> usize
    requires few { number < 100_000_000 }
    requires room { length (decimal number) ≤ length bytes.old }
    ensures len { result ≡ length (decimal number) }
    ensures written { bytes.new ≡ decimal number ++ drop result bytes.old }
{
    match bytes.first_chunk_mut::<DECIMAL_ROOM>() {
        Some(room) => write_middle(number, room),
        None => write_apart(number, bytes),
    }
}

/// Puts this many digits of a number, with leading zeros, into a buffer.
#[inline(always)]
pub(crate) fn place_digits(number: u64, count: usize, buffer: &mut [u8], at: usize)
    requires { at + count ≤ length buffer.old }
    ensures { buffer.new ≡ take at buffer.old ++ (digits count number ++ drop (at + count) buffer.old) }
{
    fill_with_digits(number, &mut buffer[at..at + count]);
}

/// Puts bytes into a buffer. What comes between two values has two or three, which take less when they are not copied.
#[inline(always)]
pub(crate) fn place(bytes: &[u8], buffer: &mut [u8], at: usize)
    requires { at + length bytes.now ≤ length buffer.old }
    ensures { buffer.new ≡ take at buffer.old ++ (bytes.now ++ drop (at + length bytes.now) buffer.old) }
{
    copy_to_front(bytes, &mut buffer[at..]);
}

/// Puts bytes to the front of others.
#[inline(always)]
pub(crate) fn copy_to_front(bytes: &[u8], room: &mut [u8])
    requires { length bytes.now ≤ length room.old }
    ensures { room.new ≡ bytes.now ++ drop (length bytes.now) room.old }
{
    match bytes {
        [first, second] => {
            room[0] = *first;
            room[1] = *second;
        }
        [first, second, third] => {
            room[0] = *first;
            room[1] = *second;
            room[2] = *third;
        }
        _ => room[..bytes.len()].copy_from_slice(bytes),
    }
}

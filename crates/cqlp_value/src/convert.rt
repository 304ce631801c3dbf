//! Values of a program's own, as values of cells.

ghost use Rattle.std.specs.Prelude.{◌≡◌, pos};
ghost use Rattle.std.specs.Int.{w32, w64, to_be_bytes};
ghost use Rattle.std.specs.Net.Addr.{ipv4_octets, ipv6_octets};
ghost use Rattle.jiff_core.specs.Time.{time_nanos};
ghost use Rattle.cqlp_note.specs.declared.prim.Address.TheVariants as address;
ghost use Rattle.cqlp_value.specs.declared.value.Atom.TheVariants as atom;
ghost use Rattle.cqlp_value.specs.declared.value.Value.{Leaf};
ghost use Rattle.cqlp_value.specs.Conversions.{IsDay, double_bits, float_bits, inet_of, value_or_null};
ghost use Rattle.cqlp_value.specs.Owned.{scalar_value};

use crate::value::{Atom, Value};
use cqlp_note::Address;
use jiff_core::civil::{Date, Time};
use std::net::{IpAddr, Ipv4Addr, Ipv6Addr};
use uuid::Uuid;

/// The value of a cell that is this scalar, as [`Value::scalar`] makes it.
impl From<Atom> for Value {
    ghost from_gives = { λ atom value. value ≡ scalar_value atom };

    fn from(atom: Atom) -> Value {
        Value::scalar(atom)
    }
}

/// A tinyint.
impl From<i8> for Value {
    ghost from_gives = { λ number value. value ≡ Leaf (atom.Tinyint number) };

    fn from(number: i8) -> Value {
        Value::Leaf(Atom::Tinyint(number))
    }
}

/// A smallint.
impl From<i16> for Value {
    ghost from_gives = { λ number value. value ≡ Leaf (atom.Smallint number) };

    fn from(number: i16) -> Value {
        Value::Leaf(Atom::Smallint(number))
    }
}

/// An int.
impl From<i32> for Value {
    ghost from_gives = { λ number value. value ≡ Leaf (atom.Int number) };

    fn from(number: i32) -> Value {
        Value::Leaf(Atom::Int(number))
    }
}

/// A bigint, as drivers take it. A counter, a timestamp and a time, which are of 64 bits too, are made of their [`Atom`].
impl From<i64> for Value {
    ghost from_gives = { λ number value. value ≡ Leaf (atom.Bigint number) };

    fn from(number: i64) -> Value {
        Value::Leaf(Atom::Bigint(number))
    }
}

/// A float. Each NaN is the one with the bytes 7f c0 00 00.
impl From<f32> for Value {
    ghost from_gives = { λ number value. value ≡ Leaf (atom.Float (to_be_bytes w32 (float_bits number))) };

    fn from(number: f32) -> Value {
        let bits = if number.is_nan() {
            0x7fc0_0000
        } else {
            number.to_bits()
        };
        Value::Leaf(Atom::Float(bits.to_be_bytes()))
    }
}

/// A double. Each NaN is the one with the bytes 7f f8 and six of 00.
impl From<f64> for Value {
    ghost from_gives = { λ number value. value ≡ Leaf (atom.Double (to_be_bytes w64 (double_bits number))) };

    fn from(number: f64) -> Value {
        let bits = if number.is_nan() {
            0x7ff8_0000_0000_0000
        } else {
            number.to_bits()
        };
        Value::Leaf(Atom::Double(bits.to_be_bytes()))
    }
}

/// A boolean.
impl From<bool> for Value {
    ghost from_gives = { λ truth value. value ≡ Leaf (atom.Boolean truth) };

    fn from(truth: bool) -> Value {
        Value::Leaf(Atom::Boolean(truth))
    }
}

/// A varchar, as drivers take it, and [`Value::Empty`] where the text is empty. An ascii is made of its [`Atom`].
impl From<String> for Value {
    ghost from_gives = { λ text value. value ≡ scalar_value (atom.Varchar text) };

    fn from(text: String) -> Value {
        Value::scalar(Atom::Varchar(text))
    }
}

/// A blob, and [`Value::Empty`] where there are no bytes.
impl From<Vec<u8>> for Value {
    ghost from_gives = { λ bytes value. value ≡ scalar_value (atom.Blob bytes) };

    fn from(bytes: Vec<u8>) -> Value {
        Value::scalar(Atom::Blob(bytes))
    }
}

/// A uuid, whatever its version is. A timeuuid is made of its [`Atom`].
impl From<Uuid> for Value {
    ghost from_gives = { λ id value. value ≡ Leaf (atom.Uuid id) };

    fn from(id: Uuid) -> Value {
        Value::Leaf(Atom::Uuid(id.into_bytes()))
    }
}

/// An inet of four bytes.
impl From<Ipv4Addr> for Value {
    ghost from_gives = { λ ip value. value ≡ Leaf (atom.Inet (address.V4 (ipv4_octets ip))) };

    fn from(address: Ipv4Addr) -> Value {
        Value::Leaf(Atom::Inet(Address::V4(address.octets())))
    }
}

/// An inet of sixteen bytes.
impl From<Ipv6Addr> for Value {
    ghost from_gives = { λ ip value. value ≡ Leaf (atom.Inet (address.V6 (ipv6_octets ip))) };

    fn from(address: Ipv6Addr) -> Value {
        Value::Leaf(Atom::Inet(Address::V6(address.octets())))
    }
}

/// An inet.
impl From<IpAddr> for Value {
    ghost from_gives = { λ ip value. value ≡ Leaf (atom.Inet (inet_of ip)) };

    fn from(address: IpAddr) -> Value {
        match address {
            IpAddr::V4(address) => Value::from(address),
            IpAddr::V6(address) => Value::from(address),
        }
    }
}

/// A date: its day, of which 2^31 is the first of January 1970.
impl From<Date> for Value {
    ghost from_gives = { IsDay };

    fn from(date: Date) -> Value {
        let day = i64::from(date.to_unix_epoch_day()) + EPOCH;
        Value::Leaf(Atom::Date(day as u32))
    }
}

/// The day that is the first of January 1970.
const EPOCH: i64 = 0x8000_0000;

/// A time: its nanoseconds since midnight.
impl From<Time> for Value {
    ghost from_gives = { λ time value. value ≡ Leaf (atom.Time (pos (time_nanos time))) };

    fn from(time: Time) -> Value {
        Value::Leaf(Atom::Time(time.to_nanosecond() as i64))
    }
}

/// Null where there is none.
impl<T: Into<Value>> From<Option<T>> for Value {
    ghost from_gives = { value_or_null T.converts };

    fn from(value: Option<T>) -> Value {
        match value {
            Some(value) => value.into(),
            None => Value::Null,
        }
    }
}

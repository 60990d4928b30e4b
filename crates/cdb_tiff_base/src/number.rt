//! Numbers in the bytes of a file.
ghost use Rattle.std.specs.Prelude.{◌≡◌, ◌≤◌, length};
ghost use Rattle.cdb_tiff_base.specs.Numbers.{number};

use crate::order::Order;
use byteorder::{BigEndian, ByteOrder, LittleEndian};

/// The number in the first two bytes, which stand in the file's byte order (TIFF 6.0 section 2).
pub fn read_u16(bytes: &[u8], order: Order) -> u16
    requires { 2 ≤ length bytes.now }
    ensures { result ≡ number order 2 bytes.now }
{
    match order {
        Order::Little => LittleEndian::read_u16(bytes),
        Order::Big => BigEndian::read_u16(bytes),
    }
}

/// The number in the first four bytes, which stand in the file's byte order (TIFF 6.0 section 2).
pub fn read_u32(bytes: &[u8], order: Order) -> u32
    requires { 4 ≤ length bytes.now }
    ensures { result ≡ number order 4 bytes.now }
{
    match order {
        Order::Little => LittleEndian::read_u32(bytes),
        Order::Big => BigEndian::read_u32(bytes),
    }
}

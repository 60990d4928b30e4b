//! Writing the fields of names and paths at the end of a text.
ghost use Rattle.std.specs.Prelude.{◌≡◌, ◌+◌, ◌<◌, ◌≤◌, ◌^◌, ◌++◌, ◌∷◌, [], length};
ghost use Rattle.std.specs.Fmt.{decimal};
ghost use Rattle.arrayvec.specs.ArrayString.{array_string_len};
ghost use Rattle.cdb_model.specs.Names.{two, three, four, eight, lat_text, lon_text, dataset_text, level_text, dataset_folder, level_folder, name};

use arrayvec::ArrayString;
use cdb_grid::{Family, Geocell, Level, Tile};
use itoa::Buffer;

fn push_digit<const CAP: usize>(text: &mut ArrayString<CAP>, digit: u8)
    requires small { digit < 10 }
    requires room { array_string_len text.old + 1 ≤ CAP }
    ensures bytes { text.new.bytes ≡ text.old.bytes ++ (48 + digit) ∷ [] }
    ensures len { array_string_len text.new ≡ array_string_len text.old + 1 }
{
    text.push((b'0' + digit) as char);
}

fn push_two<const CAP: usize>(text: &mut ArrayString<CAP>, n: u8)
    requires small { n < 100 }
    requires room { array_string_len text.old + 2 ≤ CAP }
    ensures bytes { text.new.bytes ≡ text.old.bytes ++ two n }
    ensures len { array_string_len text.new ≡ array_string_len text.old + 2 }
{
    push_digit(text, n / 10);
    push_digit(text, n % 10);
}

fn push_three<const CAP: usize>(text: &mut ArrayString<CAP>, n: u16)
    requires small { n < 1000 }
    requires room { array_string_len text.old + 3 ≤ CAP }
    ensures bytes { text.new.bytes ≡ text.old.bytes ++ three n }
    ensures len { array_string_len text.new ≡ array_string_len text.old + 3 }
{
    push_digit(text, (n / 100) as u8);
    push_two(text, (n % 100) as u8);
}

/// Four digits, at the end of the text.
pub fn push_four<const CAP: usize>(text: &mut ArrayString<CAP>, n: u32)
    requires small { n < 10000 }
    requires room { array_string_len text.old + 4 ≤ CAP }
    ensures bytes { text.new.bytes ≡ text.old.bytes ++ four n }
    ensures len { array_string_len text.new ≡ array_string_len text.old + 4 }
{
    push_two(text, (n / 100) as u8);
    push_two(text, (n % 100) as u8);
}

/// Eight digits, at the end of the text.
pub fn push_eight<const CAP: usize>(text: &mut ArrayString<CAP>, n: u32)
    requires small { n < 100000000 }
    requires room { array_string_len text.old + 8 ≤ CAP }
    ensures bytes { text.new.bytes ≡ text.old.bytes ++ eight n }
    ensures len { array_string_len text.new ≡ array_string_len text.old + 8 }
{
    push_four(text, n / 10000);
    push_four(text, n % 10000);
}

/// A number without leading zeros, at the end of the text.
pub fn push_number<const CAP: usize>(text: &mut ArrayString<CAP>, n: u32)
    requires small { n < 10 ^ 7 }
    requires room { array_string_len text.old + 7 ≤ CAP }
    ensures bytes { text.new.bytes ≡ text.old.bytes ++ decimal n }
    ensures len { array_string_len text.new ≤ array_string_len text.old + 7 }
{
    text.push_str(Buffer::new().format(n));
}

/// The latitude field of a geocell, at the end of the text.
pub fn push_latitude<const CAP: usize>(text: &mut ArrayString<CAP>, cell: Geocell)
    requires { array_string_len text.old + 3 ≤ CAP }
    ensures bytes { text.new.bytes ≡ text.old.bytes ++ lat_text cell.lat }
    ensures len { array_string_len text.new ≡ array_string_len text.old + 3 }
{
    text.push(if cell.lat < 0 { 'S' } else { 'N' });
    push_two(text, cell.lat.unsigned_abs());
}

/// The longitude field of a geocell, at the end of the text.
pub fn push_longitude<const CAP: usize>(text: &mut ArrayString<CAP>, cell: Geocell)
    requires { array_string_len text.old + 4 ≤ CAP }
    ensures bytes { text.new.bytes ≡ text.old.bytes ++ lon_text cell.lon }
    ensures len { array_string_len text.new ≡ array_string_len text.old + 4 }
{
    text.push(if cell.lon < 0 { 'W' } else { 'E' });
    push_three(text, cell.lon.unsigned_abs());
}

fn push_dataset<const CAP: usize>(text: &mut ArrayString<CAP>, family: Family)
    requires { array_string_len text.old + 15 ≤ CAP }
    ensures bytes { text.new.bytes ≡ text.old.bytes ++ dataset_text family }
    ensures len { array_string_len text.new ≡ array_string_len text.old + 15 }
{
    text.push_str(match family {
        Family::Elev => "_D001_S001_T001",
        Family::Low => "_D002_S001_T001",
        Family::High => "_D002_S001_T002",
        Family::Mat => "_D005_S001_T001",
    });
}

fn push_level<const CAP: usize>(text: &mut ArrayString<CAP>, level: Level)
    requires { array_string_len text.old + 5 ≤ CAP }
    ensures bytes { text.new.bytes ≡ text.old.bytes ++ level_text level.number }
    ensures len { array_string_len text.new ≤ array_string_len text.old + 5 }
{
    text.push_str(if level.number < 0 { "_LC" } else { "_L" });
    push_two(text, level.number.unsigned_abs());
}

/// The folder of a family's dataset, at the end of the text.
pub fn push_dataset_folder<const CAP: usize>(text: &mut ArrayString<CAP>, family: Family)
    requires { array_string_len text.old + 20 ≤ CAP }
    ensures bytes { text.new.bytes ≡ text.old.bytes ++ dataset_folder family }
    ensures len { array_string_len text.new ≤ array_string_len text.old + 20 }
{
    text.push_str(match family {
        Family::Elev => "001_Elevation",
        Family::Low | Family::High => "002_MinMaxElevation",
        Family::Mat => "005_RMTexture",
    });
}

/// The folder of a level, at the end of the text.
pub fn push_level_folder<const CAP: usize>(text: &mut ArrayString<CAP>, level: Level)
    requires { array_string_len text.old + 3 ≤ CAP }
    ensures bytes { text.new.bytes ≡ text.old.bytes ++ level_folder level.number }
    ensures len { array_string_len text.new ≤ array_string_len text.old + 3 }
{
    if level.number < 0 {
        text.push_str("LC");
    } else {
        text.push('L');
        push_two(text, level.number as u8);
    }
}

/// The file name of a tile (OGC CDB 1.2 Volume 1, tile naming).
pub fn write_name(tile: &Tile) -> ArrayString<64>
    ensures { result.bytes ≡ name tile.now }
{
    let mut text = ArrayString::new();
    push_latitude(&mut text, tile.cell);
    push_longitude(&mut text, tile.cell);
    push_dataset(&mut text, tile.family);
    push_level(&mut text, tile.level);
    text.push_str("_U");
    push_number(&mut text, tile.up);
    text.push_str("_R");
    push_number(&mut text, tile.right);
    text.push_str(".tif");
    text
}

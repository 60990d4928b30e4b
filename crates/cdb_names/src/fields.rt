//! The fields of names and paths, each read from the front of a text.
ghost use Rattle.std.specs.Prelude.{◌≡◌, ◌+◌, ◌*◌, ◌<◌, ◌≤◌, ◌^◌, ℤ, pos, negsuc, ◌≤ℤ◌, neg_ℤ, length, option_map, IfSome, Some, None, true, if◌then◌else◌};
ghost use Rattle.cdb_names.specs.Fields.{after, lat_of, lat_at, lon_of, is_on_grid, lon_at, family_of, family_at, coarse_at, fine_at, level_at, numbered_at};

use crate::digits::{read_number, read_three, read_two};
use cdb_grid::{Family, Geocell, Level};

/// What follows a prefix, where the text begins with it.
pub fn read_after<'a>(prefix: &[u8], text: &'a [u8]) -> Option<&'a [u8]>
    ensures read { option_map (λ r. r.now) result ≡ after prefix.entry.now text.entry.now }
    ensures near { IfSome result (λ r. length text.entry.now ≡ length r.now + length prefix.entry.now) }
{
    if !text.starts_with(prefix) {
        return None;
    }
    let (_, rest) = text.split_at(prefix.len());
    Some(rest)
}

fn negate(n: u8) -> i8
    requires { n ≤ 127 }
    ensures { result ≡ neg_ℤ (pos n) }
{
    -(n as i8)
}

fn negated_wide(n: u16) -> i16
    requires { n ≤ 1000 }
    ensures { result ≡ neg_ℤ (pos n) }
{
    -(n as i16)
}

fn latitude(letter: u8, degrees: u8) -> Option<i8>
    ensures value { result ≡ lat_of letter degrees }
    ensures south { IfSome result (λ lat. negsuc 89 ≤ℤ lat) }
    ensures north { IfSome result (λ lat. lat ≤ℤ pos 89) }
{
    if letter == b'N' && degrees < 90 {
        Some(degrees as i8)
    } else if letter == b'S' && 0 < degrees && degrees <= 90 {
        Some(negate(degrees))
    } else {
        None
    }
}

/// The south edge of a geocell, in degrees from -90 to 89.
#[tactic(auto, unfolding(crate::specs::Fields::lat_at))]
pub fn read_latitude(text: &[u8]) -> Option<(i8, &[u8])>
    ensures read { option_map (λ p. (p.0, p.1.now)) result ≡ lat_at text.now }
    ensures near { IfSome result (λ p. length text.now ≡ length p.1.now + 3) }
    ensures south { IfSome result (λ p. negsuc 89 ≤ℤ p.0) }
    ensures north { IfSome result (λ p. p.0 ≤ℤ pos 89) }
{
    let (letter, rest) = text.split_first()?;
    let (degrees, rest) = read_two(rest)?;
    let lat = latitude(*letter, degrees)?;
    Some((lat, rest))
}

fn longitude(letter: u8, degrees: u16) -> Option<i16>
    ensures value { result ≡ lon_of letter degrees }
    ensures west { IfSome result (λ lon. negsuc 179 ≤ℤ lon) }
    ensures east { IfSome result (λ lon. lon ≤ℤ pos 179) }
{
    if letter == b'E' && degrees < 180 {
        Some(degrees as i16)
    } else if letter == b'W' && 0 < degrees && degrees <= 180 {
        Some(negated_wide(degrees))
    } else {
        None
    }
}

/// The geocell with this corner, whose degrees are on the globe.
fn geocell(lat: i8, lon: i16) -> Option<Geocell>
    requires south { negsuc 89 ≤ℤ lat }
    requires north { lat ≤ℤ pos 89 }
    requires west { negsuc 179 ≤ℤ lon }
    requires east { lon ≤ℤ pos 179 }
    ensures value { option_map (λ cell. cell.lon) result ≡ (if is_on_grid lat lon then Some lon else None) }
    ensures grid { IfSome result (λ _. is_on_grid lat lon ≡ true) }
    ensures west_edge { IfSome result (λ cell. cell.lon ≡ lon) }
    ensures same { IfSome result (λ cell. cell.lat ≡ lat) }
{
    Geocell::new(lat, lon)
}

/// The geocell with this south edge, by the longitude of its west edge in degrees.
#[tactic(auto, unfolding(crate::specs::Fields::lon_at))]
pub fn read_longitude(lat: i8, text: &[u8]) -> Option<(Geocell, &[u8])>
    requires south { negsuc 89 ≤ℤ lat }
    requires north { lat ≤ℤ pos 89 }
    ensures read { option_map (λ p. (p.0.lon, p.1.now)) result ≡ lon_at lat text.now }
    ensures near { IfSome result (λ p. length text.now ≡ length p.1.now + 4) }
    ensures same { IfSome result (λ p. p.0.lat ≡ lat) }
{
    let (letter, rest) = text.split_first()?;
    let (degrees, rest) = read_three(rest)?;
    let lon = longitude(*letter, degrees)?;
    let cell = geocell(lat, lon)?;
    Some((cell, rest))
}

fn family(text: &[u8]) -> Option<Family>
    ensures value { result ≡ family_of text.now }
    ensures long { IfSome result (λ _. 15 ≤ length text.now) }
{
    if text.starts_with(b"_D001_S001_T001") {
        Some(Family::Elev)
    } else if text.starts_with(b"_D002_S001_T001") {
        Some(Family::Low)
    } else if text.starts_with(b"_D002_S001_T002") {
        Some(Family::High)
    } else if text.starts_with(b"_D005_S001_T001") {
        Some(Family::Mat)
    } else {
        None
    }
}

/// The family, by the numbers of its dataset and components.
#[tactic(auto, unfolding(crate::specs::Fields::family_at))]
pub fn read_family(text: &[u8]) -> Option<(Family, &[u8])>
    ensures read { option_map (λ p. (p.0, p.1.now)) result ≡ family_at text.now }
    ensures near { IfSome result (λ p. length text.now ≡ length p.1.now + 15) }
{
    let family = family(text)?;
    let (_, rest) = text.split_at(15);
    Some((family, rest))
}

#[tactic(auto, unfolding(crate::specs::Fields::coarse_at))]
fn read_coarse(text: &[u8]) -> Option<(Level, &[u8])>
    ensures read { option_map (λ p. (p.0.number, p.1.now)) result ≡ coarse_at text.now }
    ensures near { IfSome result (λ p. length text.now ≡ length p.1.now + 5) }
{
    let rest = read_after(b"_LC", text)?;
    let (n, rest) = read_two(rest)?;
    if n == 0 || n > 10 {
        return None;
    }
    let level = Level { number: negate(n) };
    Some((level, rest))
}

#[tactic(auto, unfolding(crate::specs::Fields::fine_at))]
fn read_fine(text: &[u8]) -> Option<(Level, &[u8])>
    ensures read { option_map (λ p. (p.0.number, p.1.now)) result ≡ fine_at text.now }
    ensures near { IfSome result (λ p. length text.now ≡ length p.1.now + 4) }
{
    let rest = read_after(b"_L", text)?;
    let (n, rest) = read_two(rest)?;
    if n >= 24 {
        return None;
    }
    let level = Level { number: n as i8 };
    Some((level, rest))
}

/// The level of a file name.
#[tactic(auto, unfolding(crate::specs::Fields::level_at))]
pub fn read_level(text: &[u8]) -> Option<(Level, &[u8])>
    ensures read { option_map (λ p. (p.0.number, p.1.now)) result ≡ level_at text.now }
    ensures near { IfSome result (λ p. length text.now ≤ length p.1.now + 5) }
    ensures shorter { IfSome result (λ p. length p.1.now ≤ length text.now) }
{
    if text.starts_with(b"_LC") {
        read_coarse(text)
    } else {
        read_fine(text)
    }
}

/// A number below the limit behind a prefix.
#[tactic(auto, unfolding(crate::specs::Fields::numbered_at))]
pub fn read_numbered<'a>(prefix: &[u8], limit: u32, text: &'a [u8]) -> Option<(u32, &'a [u8])>
    requires { limit ≤ 10 ^ 7 }
    ensures read { option_map (λ p. (p.0, p.1.now)) result ≡ numbered_at prefix.entry.now limit text.entry.now }
    ensures near { IfSome result (λ p. length text.entry.now ≤ length p.1.now + length prefix.entry.now + 7) }
    ensures small { IfSome result (λ p. p.0 < limit) }
    ensures shorter { IfSome result (λ p. length p.1.now ≤ length text.entry.now) }
{
    let rest = read_after(prefix, text)?;
    read_number(limit, rest)
}

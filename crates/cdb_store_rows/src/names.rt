//! File names and paths.
use cdb_names::{
    NameError, folder_of, metadata_folder, read_name, read_path, record_path, source_path,
    sources_folder, version_folder, write_name, write_path,
};
use std::process::Abort;
use std::test::Fail;

/// The first and the last geocell of every zone, on both hemispheres.
static GEOCELLS: [(&[u8], i8, i16); 40] = [
    (b"S90W180_D001_S001_T001_LC10_U0_R0.tif", -90, -180),
    (b"S90E168_D002_S001_T001_LC10_U0_R0.tif", -90, 168),
    (b"S89W180_D002_S001_T002_LC10_U0_R0.tif", -89, -180),
    (b"S89E174_D005_S001_T001_LC10_U0_R0.tif", -89, 174),
    (b"S81W180_D001_S001_T001_LC10_U0_R0.tif", -81, -180),
    (b"S81E174_D002_S001_T001_LC10_U0_R0.tif", -81, 174),
    (b"S80W180_D002_S001_T002_LC10_U0_R0.tif", -80, -180),
    (b"S80E176_D005_S001_T001_LC10_U0_R0.tif", -80, 176),
    (b"S76W180_D001_S001_T001_LC10_U0_R0.tif", -76, -180),
    (b"S76E176_D002_S001_T001_LC10_U0_R0.tif", -76, 176),
    (b"S75W180_D002_S001_T002_LC10_U0_R0.tif", -75, -180),
    (b"S75E177_D005_S001_T001_LC10_U0_R0.tif", -75, 177),
    (b"S71W180_D001_S001_T001_LC10_U0_R0.tif", -71, -180),
    (b"S71E177_D002_S001_T001_LC10_U0_R0.tif", -71, 177),
    (b"S70W180_D002_S001_T002_LC10_U0_R0.tif", -70, -180),
    (b"S70E178_D005_S001_T001_LC10_U0_R0.tif", -70, 178),
    (b"S51W180_D001_S001_T001_LC10_U0_R0.tif", -51, -180),
    (b"S51E178_D002_S001_T001_LC10_U0_R0.tif", -51, 178),
    (b"S50W180_D002_S001_T002_LC10_U0_R0.tif", -50, -180),
    (b"S50E179_D005_S001_T001_LC10_U0_R0.tif", -50, 179),
    (b"N49W180_D001_S001_T001_LC10_U0_R0.tif", 49, -180),
    (b"N49E179_D002_S001_T001_LC10_U0_R0.tif", 49, 179),
    (b"N50W180_D002_S001_T002_LC10_U0_R0.tif", 50, -180),
    (b"N50E178_D005_S001_T001_LC10_U0_R0.tif", 50, 178),
    (b"N69W180_D001_S001_T001_LC10_U0_R0.tif", 69, -180),
    (b"N69E178_D002_S001_T001_LC10_U0_R0.tif", 69, 178),
    (b"N70W180_D002_S001_T002_LC10_U0_R0.tif", 70, -180),
    (b"N70E177_D005_S001_T001_LC10_U0_R0.tif", 70, 177),
    (b"N74W180_D001_S001_T001_LC10_U0_R0.tif", 74, -180),
    (b"N74E177_D002_S001_T001_LC10_U0_R0.tif", 74, 177),
    (b"N75W180_D002_S001_T002_LC10_U0_R0.tif", 75, -180),
    (b"N75E176_D005_S001_T001_LC10_U0_R0.tif", 75, 176),
    (b"N79W180_D001_S001_T001_LC10_U0_R0.tif", 79, -180),
    (b"N79E176_D002_S001_T001_LC10_U0_R0.tif", 79, 176),
    (b"N80W180_D002_S001_T002_LC10_U0_R0.tif", 80, -180),
    (b"N80E174_D005_S001_T001_LC10_U0_R0.tif", 80, 174),
    (b"N88W180_D001_S001_T001_LC10_U0_R0.tif", 88, -180),
    (b"N88E174_D002_S001_T001_LC10_U0_R0.tif", 88, 174),
    (b"N89W180_D002_S001_T002_LC10_U0_R0.tif", 89, -180),
    (b"N89E168_D005_S001_T001_LC10_U0_R0.tif", 89, 168),
];

/// The folders of a tile, and its file name.
static PATHS: [(&[u8], &[u8]); 4] = [
    (
        b"V00000001/Tiles/N46/E007/001_Elevation/LC/U0",
        b"N46E007_D001_S001_T001_LC10_U0_R0.tif",
    ),
    (
        b"V00000001/Tiles/S90/W180/005_RMTexture/L00/U0",
        b"S90W180_D005_S001_T001_L00_U0_R0.tif",
    ),
    (
        b"V00000001/Tiles/N46/E007/002_MinMaxElevation/L03/U7",
        b"N46E007_D002_S001_T002_L03_U7_R0.tif",
    ),
    (
        b"V00000001/Tiles/N46/E007/002_MinMaxElevation/L23/U8388607",
        b"N46E007_D002_S001_T001_L23_U8388607_R8388607.tif",
    ),
];

/// Texts that are no file name, and the place of the first wrong field.
static WRONG_NAMES: [(&[u8], u32); 17] = [
    (b"", 0),
    (b"S00E007_D001_S001_T001_LC10_U0_R0.tif", 0),
    (b"N90E007_D001_S001_T001_LC10_U0_R0.tif", 0),
    (b"N50E007_D001_S001_T001_LC10_U0_R0.tif", 3),
    (b"N46W000_D001_S001_T001_LC10_U0_R0.tif", 3),
    (b"N46E007_D003_S001_T001_LC10_U0_R0.tif", 7),
    (b"N46E007_D001_S001_T001_LC11_U0_R0.tif", 22),
    (b"N46E007_D001_S001_T001_LC00_U0_R0.tif", 22),
    (b"N46E007_D001_S001_T001_L24_U0_R0.tif", 22),
    (b"N46E007_D001_S001_T001_L01_U01_R0.tif", 26),
    (b"N46E007_D001_S001_T001_L01_U2_R0.tif", 26),
    (b"N46E007_D001_S001_T001_L01_U99999999999_R0.tif", 26),
    (b"N46E007_D001_S001_T001_LC10_U1_R0.tif", 27),
    (b"N46E007_D001_S001_T001_L01_U1_R2.tif", 29),
    (b"N46E007_D001_S001_T001_L01_U1_R.tif", 29),
    (b"N46E007_D001_S001_T001_L01_U1_R1.tiff", 32),
    (b"N46E007_D001_S001_T001_L01_U1_R1.TIF", 32),
];

/// Texts that are no path, and the place of the first wrong field.
static WRONG_PATHS: [(&[u8], u32); 14] = [
    (
        b"V00000000/Tiles/N46/E007/001_Elevation/LC/U0/N46E007_D001_S001_T001_LC10_U0_R0.tif",
        0,
    ),
    (
        b"V00004097/Tiles/N46/E007/001_Elevation/LC/U0/N46E007_D001_S001_T001_LC10_U0_R0.tif",
        0,
    ),
    (
        b"V00000001/tiles/N46/E007/001_Elevation/LC/U0/N46E007_D001_S001_T001_LC10_U0_R0.tif",
        10,
    ),
    (
        b"V00000001/Tiles/N46E007/001_Elevation/LC/U0/N46E007_D001_S001_T001_LC10_U0_R0.tif",
        16,
    ),
    (
        b"V00000001/Tiles/N50/E007/001_Elevation/LC/U0/N50E007_D001_S001_T001_LC10_U0_R0.tif",
        20,
    ),
    (
        b"V00000001/Tiles/N46/E007/002_Elevation/LC/U0/N46E007_D001_S001_T001_LC10_U0_R0.tif",
        25,
    ),
    (
        b"V00000001/Tiles/N46/E007/001_Elevation/LC10/U0/N46E007_D001_S001_T001_LC10_U0_R0.tif",
        39,
    ),
    (
        b"V00000001/Tiles/N46/E007/001_Elevation/LC/U1/N46E007_D001_S001_T001_LC10_U1_R0.tif",
        42,
    ),
    (
        b"V00000001/Tiles/N46/E007/001_Elevation/LC/U0/N47E007_D001_S001_T001_LC10_U0_R0.tif",
        45,
    ),
    (
        b"V00000001/Tiles/N46/E008/001_Elevation/LC/U0/N46E007_D001_S001_T001_LC10_U0_R0.tif",
        48,
    ),
    (
        b"V00000001/Tiles/N46/E007/001_Elevation/LC/U0/N46E007_D002_S001_T001_LC10_U0_R0.tif",
        52,
    ),
    (
        b"V00000001/Tiles/N46/E007/001_Elevation/LC/U0/N46E007_D001_S001_T001_L00_U0_R0.tif",
        67,
    ),
    (
        b"V00000001/Tiles/N46/E007/001_Elevation/L01/U1/N46E007_D001_S001_T001_L01_U0_R1.tif",
        72,
    ),
    (
        b"V00000001/Tiles/N46/E007/001_Elevation/L01/U1/N46E007_D001_S001_T001_L01_U1_R1.tif/",
        78,
    ),
];

fn check_geocell(rt: &impl Abort, text: &[u8], lat: i8, lon: i16) -> Result<(), Fail> {
    let tile = read_name(text)?;
    assert_eq!(rt; (tile.cell.lat, tile.cell.lon), (lat, lon));
    assert_eq!(rt; write_name(&tile).as_str().as_bytes(), text);

    let path = write_path(4096, &tile);
    assert_eq!(rt; read_path(path.as_str().as_bytes()), Ok((4096, tile)));
    Ok(())
}

#[test]
fn geocells_at_the_ends_of_each_zone(rt: HostRuntime) -> Result<(), Fail> {
    for (text, lat, lon) in GEOCELLS.iter() {
        check_geocell(&rt, text, *lat, *lon)?;
    }
    Ok(())
}

fn check_path(rt: &impl Abort, folder: &[u8], name: &[u8]) -> Result<(), Fail> {
    let tile = read_name(name)?;
    assert_eq!(rt; write_name(&tile).as_str().as_bytes(), name);
    assert_eq!(rt; folder_of(1, &tile).as_str().as_bytes(), folder);

    let path = write_path(1, &tile);
    assert!(rt; path.as_str().as_bytes().starts_with(folder));
    assert!(rt; path.as_str().as_bytes().ends_with(name));
    assert_eq!(rt; read_path(path.as_str().as_bytes()), Ok((1, tile)));
    Ok(())
}

#[test]
fn texts_of_paths(rt: HostRuntime) -> Result<(), Fail> {
    for (folder, name) in PATHS.iter() {
        check_path(&rt, folder, name)?;
    }
    assert_eq!(rt; version_folder(4097).as_str(), "V00004097");
    assert_eq!(rt; sources_folder(1).as_str(), "V00000001/Sources");
    assert_eq!(rt; source_path(12, 64).as_str(), "V00000012/Sources/S0064");
    assert_eq!(rt; metadata_folder(4096).as_str(), "V00004096/Metadata");
    assert_eq!(rt; record_path(4096).as_str(), "V00004096/Metadata/record");
    Ok(())
}

/// The longest name and the longest path.
#[test]
fn longest_texts(rt: HostRuntime) -> Result<(), Fail> {
    let tile = read_name(b"N46E007_D002_S001_T001_L23_U8388607_R8388607.tif")?;
    assert_eq!(rt; write_name(&tile).len(), 48);
    assert_eq!(rt; write_path(1, &tile).len(), 106);
    Ok(())
}

#[test]
fn places_of_wrong_fields(rt: HostRuntime) {
    for (text, place) in WRONG_NAMES.iter() {
        assert_eq!(rt; read_name(text), Err(NameError { place: *place }));
    }
    for (text, place) in WRONG_PATHS.iter() {
        assert_eq!(rt; read_path(text), Err(NameError { place: *place }));
    }
}

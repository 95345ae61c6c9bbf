// The files of a host in memory.
ghost use Rattle.std.specs.Prelude.{◌≡◌, ℕ, ◌<◌, slice_index, string_bytes};

use std::marker::Model;

/// A file's name, seen as its bytes.
#[derive(Drop)]
pub struct FileName {
    name: String,
}

impl Model for FileName {
    ghost use Rattle.std.specs.Prelude.{ℕ, List, string_bytes};

    ghost Value = { List ℕ };

    ghost view = { λ n. string_bytes n.name };
}

impl FileName {
    pub fn of(name: String) -> FileName
        ensures { result ≡ string_bytes name }
    {
        FileName { name }
    }

    pub fn as_str(&self) -> &str
        ensures { result.now ≡ self.now }
    {
        self.name.as_str()
    }
}

/// A file's bytes, seen as their list.
#[derive(Drop)]
pub struct FileBytes {
    bytes: Vec<u8>,
}

impl Model for FileBytes {
    ghost use Rattle.std.specs.Prelude.{ℕ, List};

    ghost Value = { List ℕ };

    ghost view = { λ f. f.bytes.items };
}

impl FileBytes {
    pub fn of(bytes: Vec<u8>) -> FileBytes
        ensures items { result ≡ bytes.items }
        ensures are_bytes { (k : ℕ) → slice_index result k < 256 }
    {
        FileBytes { bytes }
    }

    pub fn as_slice(&self) -> &[u8]
        ensures { result.now ≡ self.now }
    {
        &self.bytes
    }
}

/// A file of a host in memory.
#[derive(Drop)]
pub struct NamedFile {
    pub name: FileName,
    pub bytes: FileBytes,
    ghost are_bytes: { (k : ℕ) → slice_index bytes k < 256 },
}

impl NamedFile {
    pub fn of(name: String, bytes: Vec<u8>) -> NamedFile
        ensures name { result.name ≡ string_bytes name }
        ensures bytes { result.bytes ≡ bytes.items }
    {
        NamedFile {
            name: FileName::of(name),
            bytes: FileBytes::of(bytes),
        }
    }
}

//! A node file or a scenario, as it was read.

ghost use Rattle.std.specs.Prelude.{◌≡◌, IfOk};
ghost use Rattle.commands.specs.declared.text_file.FileFault.TheVariants.{Memory};

use std::alloc::AllocError;
use std::fs;
use std::io::ErrorKind;
use std::marker::Model;
use std::rt::Files;

/// A file that was read: the path that was asked for, and the text that was found there. Contracts see
/// both. Nothing but [`TextFile::read`] makes one.
#[derive(Debug, Drop)]
pub struct TextFile {
    path: String,
    text: String,
}

impl Model for TextFile {
    ghost use Rattle.std.specs.Prelude.{string_bytes};
    ghost use Rattle.commands.specs.NodeFiles.{ReadFile};

    ghost Value = { ReadFile };

    ghost view = { λ f. record { path = string_bytes f.path; text = string_bytes f.text } };
}

/// Why a file was not read.
#[derive(Clone, Copy, Debug, PartialEq, Eq)]
pub enum FileFault {
    /// There is no such file, it can't be read, or it isn't UTF-8.
    Unreadable,
    /// An allocation failed.
    Memory,
}

impl From<AllocError> for FileFault {
    ghost from_gives = { λ _ e. e ≡ Memory };

    fn from(_e: AllocError) -> FileFault {
        FileFault::Memory
    }
}

impl TextFile {
    /// Reads the file at this path. What a file holds is no contract's to say.
    pub fn read<R: Files + AllocGlobal>(rt: &R, path: &str) -> Result<TextFile, FileFault>
        ensures { IfOk result (λ file. file.path ≡ path.now) }
    {
        let path_read = String::from_str(rt.alloc(), path)?;
        match fs::read_to_string(rt, path) {
            Ok(text) => Ok(TextFile {
                path: path_read,
                text,
            }),
            Err(error) if error.kind() == ErrorKind::OutOfMemory => Err(FileFault::Memory),
            Err(_) => Err(FileFault::Unreadable),
        }
    }

    /// The text that was found.
    pub fn text(&self) -> &str
        ensures { result.now ≡ self.now.text }
    {
        self.text.as_str()
    }
}

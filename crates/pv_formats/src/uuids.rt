ghost use Rattle.std.specs.Prelude.{◌≡◌, IfOk};
ghost use Rattle.pv_formats.specs.Uuids.{uuid_of};

use pv_text::{Memory, Text};
use std::alloc::Global;
use uuid::Uuid;

/// A UUID: its version digit, and its text with hyphens and in lower case.
#[derive(Drop)]
pub struct UuidText {
    pub version: u64,
    pub text: Text,
}

/// Reads a UUID in any of its forms. It is `None` where the text is none.
#[tactic(auto, unfolding(crate::specs::Uuids::uuid_of))]
pub fn uuid(alloc: Global, text: &str) -> Result<Option<UuidText>, Memory>
    ensures { IfOk result (λ found. found ≡ uuid_of text.now) }
{
    match Uuid::parse_str(text) {
        Ok(id) => {
            let mut buffer = Uuid::encode_buffer();
            let spelled = id.hyphenated().encode_lower(&mut buffer);
            Ok(Some(UuidText {
                version: id.get_version_num() as u64,
                text: Text::from_str(alloc, spelled)?,
            }))
        }
        Err(_) => Ok(None),
    }
}

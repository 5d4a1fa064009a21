ghost use Rattle.std.specs.Prelude.{◌≡◌, IfOk};
ghost use Rattle.pv_formats.specs.Urls.{url_of};

use pv_text::{Memory, Text};
use std::alloc::Global;
use url::{ParseError, Url};

/// A URL: its scheme, and the text of the whole.
#[derive(Drop)]
pub struct UrlText {
    pub scheme: Text,
    pub text: Text,
}

/// Reads a URL. It is `None` where the text is none.
#[tactic(auto, unfolding(crate::specs::Urls::url_of))]
pub fn url(alloc: Global, text: &str) -> Result<Option<UrlText>, Memory>
    ensures { IfOk result (λ found. found ≡ url_of text.now) }
{
    match Url::parse(alloc, text) {
        Ok(url) => Ok(Some(UrlText {
            scheme: Text::from_str(alloc, url.scheme())?,
            text: Text::from_str(alloc, url.as_str())?,
        })),
        Err(ParseError::OutOfMemory | ParseError::Overflow) => Err(Memory),
        Err(_) => Ok(None),
    }
}

// The path of a request's target.
ghost use Rattle.std.specs.Prelude.{◌≡◌, ◌<◌, IfOk, MatchOption, length};
ghost use Rattle.http_uri.specs.Uri.{uri_path};
ghost use Rattle.split_http.specs.Paths.{IsPathOf};

use http_uri::{Uri, UriError};
use split_base::NoMemory;
use std::alloc::Global;
use std::marker::Model;

/// The path of a request, as text. Contracts see its bytes.
#[derive(Debug, Drop)]
pub struct PathText {
    text: String,
}

impl Model for PathText {
    ghost use Rattle.std.specs.Prelude.{ℕ, List, string_bytes};

    ghost Value = { List ℕ };

    ghost view = { λ p. string_bytes p.text };
}

impl PathText {
    // The router looks at text of its own, so the path is copied.
    fn new(alloc: Global, text: &str) -> Result<PathText, NoMemory>
        ensures { IfOk result (λ p. p ≡ text.now) }
    {
        match String::from_str(alloc, text) {
            Ok(text) => Ok(PathText { text }),
            Err(_) => Err(NoMemory),
        }
    }

    /// The text.
    pub fn as_str(&self) -> &str
        ensures { result.now ≡ self.now }
    {
        self.text.as_str()
    }
}

// The path of a target, if it has one.
fn path_of(alloc: Global, uri: &Uri) -> Result<Option<PathText>, NoMemory>
    ensures { IfOk result (λ found.
        MatchOption found (length (uri_path uri.now) ≡ 0) (λ path.
        (path ≡ uri_path uri.now) × (0 < length path))) }
{
    let path = uri.path();
    if path.is_empty() {
        return Ok(None);
    }
    Ok(Some(PathText::new(alloc, path)?))
}

// The path of a target, if `http` takes the target and it has one. An absolute target's path is
// taken, and a fragment and a query are left out.
pub(crate) fn target_path(alloc: Global, target: &[u8]) -> Result<Option<PathText>, NoMemory>
    ensures { IfOk result (IsPathOf target.now) }
{
    match Uri::from_bytes(alloc, target) {
        Ok(uri) => path_of(alloc, &uri),
        Err(UriError::OutOfMemory) => Err(NoMemory),
        Err(UriError::Invalid(_)) => Ok(None),
    }
}

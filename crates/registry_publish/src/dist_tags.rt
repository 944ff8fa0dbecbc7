//! The tag that a publish body asks for.

ghost use Rattle.std.specs.Prelude.{◌≡◌, option_map};
ghost use Rattle.serde_json.specs.View.{view, members_view};
ghost use Rattle.registry_publish.specs.DistTags as spec;

use crate::members::is_text;
use serde_json::{Map, Value};

fn tag_in<'v>(members: &'v Map<String, Value>, version: &str) -> Option<Option<&'v str>>
    ensures { option_map (λ tag. option_map (λ t. t.now) tag) result
        ≡ spec.tag_in version.now (members_view members.now.entries) }
{
    if members.len() > 1 {
        return None;
    }
    match members.first_key_value() {
        Some((tag, named)) => if is_text(named, version) {
            Some(Some(tag.as_str()))
        } else {
            None
        },
        None => Some(None),
    }
}

// The tag, if any, that `dist-tags` gives the version. `None` where it isn't in form.
pub(crate) fn tag_at<'v>(value: &'v Value, version: &str) -> Option<Option<&'v str>>
    ensures { option_map (λ tag. option_map (λ t. t.now) tag) result
        ≡ spec.tag_at version.now (view value.now) }
{
    match value.get("dist-tags") {
        Some(tags) => tag_in(tags.as_object()?, version),
        None => Some(None),
    }
}

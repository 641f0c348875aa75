ghost use Rattle.std.specs.Prelude.{◌≡◌};
ghost use Rattle.std.specs.List.{list_all};
ghost use Rattle.text_forms.specs.FileNames.{may_begin};
ghost use Rattle.text_forms.specs.TaskNames.{task_name};

use crate::file_name::begins_name;

fn all_in_name(bytes: &[u8]) -> bool
    ensures { result ≡ list_all may_begin bytes.now }
{
    bytes.iter().all(|c| begins_name(*c))
}

/// Whether a text is the name of a task: 1 to 32 letters, digits and `_` of ASCII.
pub fn is_task_name(text: &str) -> bool
    ensures { result ≡ task_name text.now }
{
    if text.is_empty() {
        return false;
    }
    if text.len() > 32 {
        return false;
    }
    all_in_name(text.as_bytes())
}

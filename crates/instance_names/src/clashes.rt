// Cause 8: "name already in the context, own or brought".
ghost use Rattle.std.specs.Prelude.{◌≡◌, ◌≤◌};
ghost use Rattle.limits.specs.Limits.{max_modules};
ghost use Rattle.instance_names.specs.Sites.{clashes_at};

use crate::Site;
use context::lookup::{find_entry, has_defined_name};
use store::Store;

pub fn clashes(store: &Store, x: Site, name: u16) -> bool
    requires { (x.modules ≤ max_modules) × (x.source ≤ max_modules) }
    ensures { result ≡ clashes_at store.now.names store.now.contexts store.now.heads x name }
{
    if name == 0 {
        return has_defined_name(store, x.modules, x.source);
    }
    find_entry(store, x.modules, name).is_some()
}

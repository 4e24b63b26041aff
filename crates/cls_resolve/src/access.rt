//! Which classes and members a class may use.

ghost use Rattle.std.specs.Prelude.{◌≡◌, ◌↔◌, ◌<◌, ◌≤◌, IsTrue, length, take};
ghost use Rattle.cls_resolve.specs.Access as spec;
ghost use Rattle.cls_resolve.specs.Access.{name_of, package_name, IsAccessible, IsMemberAccessible};

use cls_set::{ClassId, ClassSet, Flags};

// How much of a name is that of the package, with the last `/`.
fn package_length(name: &[u8]) -> usize
    ensures within { result ≤ length name.now }
    ensures package_of { package_name name.now ≡ take result name.now }
{
    let mut end = 0;
    for (index, byte) in name.iter().enumerate() {
        if *byte == b'/' {
            end = index + 1;
        }
    }
    end
}

// The package of a class.
fn package(set: &ClassSet, class: ClassId) -> &[u8]
    requires { class.0 < length set.now }
    ensures { result.now ≡ package_name (name_of set.now class) }
{
    let name = set.name(class).as_bytes();
    let (package, _) = name.split_at(package_length(name));
    package
}

fn is_same_package(set: &ClassSet, user: ClassId, class: ClassId) -> bool
    requires user { user.0 < length set.now }
    requires class { class.0 < length set.now }
    ensures { IsTrue result ↔ (package_name (name_of set.now user) ≡ package_name (name_of set.now class)) }
{
    package(set, user) == package(set, class)
}

// The flags of a class.
pub(crate) fn flags_of(set: &ClassSet, class: ClassId) -> Flags
    requires { class.0 < length set.now }
    ensures { result.bits ≡ spec.flags_of set.now class }
{
    set.class(class).file.flags
}

// Whether a class may use another.
pub(crate) fn is_accessible(set: &ClassSet, user: ClassId, class: ClassId) -> bool
    requires user { user.0 < length set.now }
    requires class { class.0 < length set.now }
    ensures { IsTrue result ↔ IsAccessible set.now user class }
{
    flags_of(set, class).has(Flags::PUBLIC) || is_same_package(set, user, class)
}

// Whether a class may use a member with these flags that another declares.
pub(crate) fn is_member_accessible(
    set: &ClassSet,
    user: ClassId,
    owner: ClassId,
    flags: Flags,
) -> bool
    requires user { user.0 < length set.now }
    requires owner { owner.0 < length set.now }
    ensures { IsTrue result ↔ IsMemberAccessible set.now user owner flags.bits }
{
    if user == owner {
        return true;
    }
    if flags.has(Flags::PRIVATE) {
        return false;
    }
    flags.has(Flags::PUBLIC) || is_same_package(set, user, owner)
}

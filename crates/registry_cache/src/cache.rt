//! The cache of what is shared.

ghost use Rattle.std.specs.Prelude.{◌≡◌, ◌≤◌, ◌+◌, nat_le, ◌∷◌, [], length, option_copied, option_map, IfOk, OnOk, OnErr, Some, None, not};
ghost use Rattle.registry_names.specs.Texts.{is};
ghost use Rattle.registry_names.specs.Maps.{first_at};
ghost use Rattle.registry_cache.specs.Caches as spec;
ghost use Rattle.registry_cache.specs.Caches.{cache, entry_cost, kept, size, large_size, asked, forgotten, with_text, with_room, prefix, entries_without, passed, without_large};

use crate::named::Named;
use crate::shared::Shared;
use crate::shared_blob::SharedBlob;
use crate::shared_text::SharedText;
use lru::LruCache;
use std::alloc::{AllocError, Global};
use std::marker::Model;

/// What an entry takes of a cache's limit beside its bytes and those of its name: its place among
/// the others, and what the allocator adds.
pub const ENTRY_COST: usize = 256;

/// Texts or blobs by name, which together take a limited number of bytes, and beside them one that
/// alone takes more. A text takes its bytes, those of its name and [`ENTRY_COST`].
///
/// Contracts see each name with the bytes, the latest asked first, then the large one with its name,
/// if there is one, and the limit.
#[derive(Drop)]
pub struct SharedCache<V: Shared> {
    entries: LruCache<String, V>,
    size: usize,
    large: Option<Named<V>>,
    limit: usize,
}

/// A cache of texts.
pub type TextCache = SharedCache<SharedText>;

/// A cache of blobs.
pub type BlobCache = SharedCache<SharedBlob>;

impl<V: Shared> Model for SharedCache<V> {
    ghost use Rattle.std.specs.Prelude.{string_bytes};
    ghost use Rattle.registry_cache.specs.Caches.{Cache, cache, cache_code};
    ghost use Rattle.registry_cache.specs.Inside.{named, IsCounted};

    ghost Value = { Cache };

    ghost coded = { cache_code };

    ghost view = { λ s. cache (named string_bytes V.bytes s.entries.entries) s.large s.limit };

    ghost invariant = { λ s. IsCounted (named string_bytes V.bytes s.entries.entries) s.size s.limit
        s.entries.cap };
}

impl<V: Shared> SharedCache<V> {
    /// A cache that keeps nothing, and will keep values that take at most `limit` bytes together, and
    /// one that alone takes more.
    ///
    /// An error is returned where no memory is left.
    pub fn new(alloc: Global, limit: usize) -> Result<SharedCache<V>, AllocError>
        ensures { IfOk result (λ s. s ≡ cache [] None limit) }
    {
        let entries = LruCache::unbounded(alloc)?;
        Ok(SharedCache {
            entries,
            size: 0,
            large: None,
            limit,
        })
    }

    /// What is kept under the name, which is now the latest asked.
    ///
    /// An error is returned where the number of its owners can't be counted any more.
    pub fn get(&mut self, name: &str) -> Result<Option<V>, AllocError>
        ensures text { IfOk result (λ value. option_map V.bytes value ≡ kept self.old name.now) }
        ensures cache { self.new ≡ asked self.old name.now }
    {
        self.ask(name);
        match self.peek(name) {
            Some(value) => Ok(Some(value.share()?)),
            None => Ok(None),
        }
    }

    /// What is kept under the name. The order stays as it is.
    pub fn peek(&self, name: &str) -> Option<&V>
        ensures { option_map V.bytes (option_copied result) ≡ kept self.now name.now }
    {
        match &self.large {
            Some(large) if large.has_name(name) => Some(large.value()),
            _ => self.entries.peek(name),
        }
    }

    /// Keeps the value under the name, in place of what was kept there, as the latest asked. Others
    /// go where together they take too much, the least lately asked first. One that alone takes more
    /// than the limit is kept in place of the one that was kept so before, and none of the
    /// others goes.
    ///
    /// An error is returned where no memory is left. Then nothing is kept under the name, and as
    /// much of the others as if the value were kept.
    pub fn put(&mut self, name: &str, value: V) -> Result<(), AllocError>
        ensures ok { OnOk result (self.new ≡ with_text self.old name.now (V.bytes value)) }
        ensures err { OnErr result (self.new ≡ with_room self.old name.now (V.bytes value)) }
    {
        self.forget(name);
        let len = value.len();
        if !fits(self.limit, name, len) {
            return self.put_large(name, value);
        }
        let cost = cost_of(self.limit, name, len);
        self.make_room(self.limit - cost);
        self.add(name, value, cost)
    }

    /// Keeps nothing under the name from now on, and all else as it is.
    pub fn forget(&mut self, name: &str)
        ensures { self.new ≡ forgotten self.old name.now }
    {
        self.forget_large(name);
        self.forget_entry(name);
    }

    /// The number of bytes that all entries take together, without the large one.
    pub fn bytes_without_large(&self) -> usize
        ensures size { result ≡ size self.now.entries }
        ensures limited { result ≤ self.now.limit }
    {
        self.size
    }

    /// The number of bytes of the value that alone takes more than the limit, and 0 where there is
    /// none.
    pub fn large_size(&self) -> usize
        ensures { result ≡ large_size self.now }
    {
        match &self.large {
            Some(large) => large.value().len(),
            None => 0,
        }
    }

    /// The limit of the number of bytes that all entries take together, without the large one.
    pub fn limit(&self) -> usize
        ensures { result ≡ self.now.limit }
    {
        self.limit
    }

    fn ask(&mut self, name: &str)
        ensures { self.new ≡ asked self.old name.now }
    {
        let _names_differ = self.entries.len();
        self.entries.promote(name);
    }

    fn forget_entry(&mut self, name: &str)
        ensures { self.new ≡ cache (entries_without name.now self.old.entries) self.old.large self.old.limit }
    {
        let _names_differ = self.entries.len();
        if let Some(value) = self.entries.pop(name) {
            self.size -= cost_of(self.size, name, value.len());
        }
    }

    fn forget_large(&mut self, name: &str)
        ensures { self.new ≡ cache self.old.entries (passed (λ q. not (is q name.now)) self.old.large) self.old.limit }
    {
        let is_large = match &self.large {
            Some(large) => large.has_name(name),
            None => false,
        };
        if is_large {
            self.large = None;
        }
    }

    // Keeps nothing under the name of the large value from now on.
    fn give_place(&mut self)
        ensures { self.new ≡ without_large self.old }
    {
        if let Some(large) = self.large.take() {
            self.forget_entry(large.name());
        }
    }

    // Keeps a large value in place of the one that was kept before.
    fn put_large(&mut self, name: &str, value: V) -> Result<(), AllocError>
        ensures ok { OnOk result (self.new ≡ cache (without_large self.old).entries
            (Some (name.now, V.bytes value)) self.old.limit) }
        ensures err { OnErr result (self.new ≡ without_large self.old) }
    {
        self.give_place();
        let alloc = *self.entries.allocator();
        self.large = Some(Named::new(alloc, name, value)?);
        Ok(())
    }

    // Lets the least lately asked go until the others take no more than this.
    fn make_room(&mut self, room: usize)
        ensures { self.new ≡ cache (prefix room self.old.entries) self.old.large self.old.limit }
    {
        while self.size > room {
            let Some((name, value)) = self.entries.pop_lru() else {
                return;
            };
            self.size -= cost_of(self.size, name.as_str(), value.len());
        }
    }

    // Keeps a value more, under a name that has none.
    fn add(&mut self, name: &str, value: V, cost: usize) -> Result<(), AllocError>
        requires new { first_at is self.old.entries name.now ≡ None }
        requires cost { cost ≡ spec.cost (name.now, V.bytes value) }
        requires room { size self.old.entries + cost ≤ self.old.limit }
        ensures ok { OnOk result (self.new ≡ cache ((name.now, V.bytes value) ∷ self.old.entries)
            self.old.large self.old.limit) }
        ensures err { OnErr result (self.new ≡ self.old) }
    {
        let alloc = *self.entries.allocator();
        let name = String::from_str(alloc, name)?;
        // Reading the length tells the prover that one entry more can be counted.
        let _few = self.entries.len();
        self.entries.put(name, value)?;
        self.size += cost;
        Ok(())
    }
}

// Whether an entry takes no more than the limit: under this name, with so many bytes.
fn fits(limit: usize, name: &str, len: usize) -> bool
    ensures { result ≡ nat_le (entry_cost + (length name.now + len)) limit }
{
    if limit < ENTRY_COST {
        return false;
    }
    let room = limit - ENTRY_COST;
    if room < name.len() {
        return false;
    }
    len <= room - name.len()
}

// What an entry takes that fits.
fn cost_of(limit: usize, name: &str, len: usize) -> usize
    requires { entry_cost + (length name.now + len) ≤ limit }
    ensures cost { result ≡ entry_cost + (length name.now + len) }
    ensures within { result ≤ limit }
{
    ENTRY_COST + (name.len() + len)
}

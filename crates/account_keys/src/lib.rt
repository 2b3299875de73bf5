// The owners' account keys, and the stored list: document 01, "The device and its events" and "Stored list"; document 02 (ii), the
// order of use, and (vi), ten keys and the list's two versions.
#![tactic(auto)]

ghost use Rattle.std.specs.Prelude.{◌≡◌, [], ◌∷◌, ◌++◌, ◌+◌, ◌*◌, ◌<◌, ◌≤◌, length, drop};
ghost use Rattle.basics.specs.Output.{report_of, placed};
ghost use Rattle.account_keys.specs.Keys as rule;
ghost use Rattle.account_keys.specs.Keys.{Valid, Kept, limit, held, kept, member, stored};
ghost use Rattle.account_keys.specs.StoredList.{key_bytes, keys_in, reading_of, reading_under, reading, writing};

use basics::Answer;

// The most keys that are held.
pub const LIMIT: usize = 10;
// The keys that stay when one is removed from a full list.
const LAST: usize = LIMIT - 1;

// The most bytes that a stored list has: specs/StoredList.antt, `stored_list_max`.
pub const STORED_LIST_MAX: usize = 4 + 16 * LIMIT;

// The version of a stored list that is written.
const NEWER: u8 = 0x02;
// The version that is still read.
const OLDER: u8 = 0x01;
// The most keys that a list of the older version has.
const OLDER_LIMIT: usize = 5;

// The key that a phone wrote to become an owner.
#[derive(Clone, Copy)]
pub struct AccountKey {
    pub bytes: [u8; 16],
}

// The keys held, least recently used first, none twice: the first `count` of `keys`; the other places are zero.
#[derive(Clone, Copy)]
pub struct AccountKeys {
    pub keys: [AccountKey; LIMIT],
    pub count: usize,
}

impl AccountKeys {
    pub fn none() -> AccountKeys
        ensures { result ≡ kept [] }
    {
        AccountKeys {
            keys: [AccountKey { bytes: [0u8; 16] }; LIMIT],
            count: 0,
        }
    }

    pub fn holds(self, key: AccountKey) -> bool
        requires { Kept self }
        ensures { result ≡ member (held self) key }
    {
        among(&self.keys[..self.count], key)
    }

    // The keys after an account key write: one that is held is used; for a new one, which goes last, a full list loses its first.
    #[tactic(auto, unfolding(crate::specs::Keys::stored))]
    pub fn store(self, key: AccountKey) -> AccountKeys
        requires { Kept self }
        ensures { result ≡ kept (stored (held self) key) }
    {
        if self.holds(key) {
            return self.used(key);
        }
        if LIMIT <= self.count {
            return self.without_first().push(key);
        }
        self.push(key)
    }

    // A held key moved to the end; one that is not held moves nothing.
    #[tactic(auto, unfolding(crate::specs::Keys::used))]
    pub fn used(self, key: AccountKey) -> AccountKeys
        requires { Kept self }
        ensures { result ≡ kept (rule.used (held self) key) }
    {
        if !self.holds(key) {
            return self;
        }
        self.without(key).push(key)
    }

    // The other keys, in their order.
    fn without(self, key: AccountKey) -> AccountKeys
        requires { Kept self }
        ensures { result ≡ kept (rule.without (held self) key) }
    {
        let mut others = AccountKeys::none();
        for held in &self.keys[..self.count] {
            others = others.push_unless(*held, key);
        }
        others
    }

    // One key more, last, unless it is the one that is left out.
    fn push_unless(self, key: AccountKey, absent: AccountKey) -> AccountKeys
        requires { Kept self × (self.count < limit) }
        ensures { result ≡ kept (held self ++ rule.without (key ∷ []) absent) }
    {
        if basics::same(&key.bytes, &absent.bytes) {
            return self;
        }
        self.push(key)
    }

    // One key more, last.
    fn push(mut self, key: AccountKey) -> AccountKeys
        requires { Kept self × (self.count < limit) }
        ensures { result ≡ kept (held self ++ (key ∷ [])) }
    {
        self.keys[self.count] = key;
        self.count += 1;
        self
    }

    // The first key, the least recently used, removed from a full list.
    fn without_first(self) -> AccountKeys
        requires { Kept self × (limit ≤ self.count) }
        ensures { result ≡ kept (drop 1 (held self)) }
    {
        let mut keys = AccountKeys::none().keys;
        keys[..LAST].copy_from_slice(&self.keys[1..]);
        AccountKeys { keys, count: LAST }
    }

    // The stored list written to `out`, if all of it has room there.
    pub fn write(self, out: &mut [u8]) -> Result<usize, Answer>
        requires { Valid self }
        ensures value { result ≡ report_of (writing (held self)) out.old }
        ensures out_after { out.new ≡ placed (writing (held self)) out.old }
    {
        let n = self.count;
        let rest = 2 + 16 * n;
        if out.len() < rest + 2 {
            return Err(Answer::OutputTooShort);
        }
        let [high, low] = (rest as u16).to_be_bytes();
        out[..4].copy_from_slice(&[high, low, NEWER, n as u8]);
        self.write_keys(&mut out[4..]);
        Ok(rest + 2)
    }

    fn write_keys(self, out: &mut [u8])
        requires { Valid self × (16 * self.count ≤ length out.old) }
        ensures { out.new ≡ key_bytes (held self) ++ drop (16 * self.count) out.old }
    {
        for (i, key) in self.keys[..self.count].iter().enumerate() {
            basics::copy(out, 16 * i, &key.bytes);
        }
    }
}

// Whether a key is one of these.
fn among(keys: &[AccountKey], key: AccountKey) -> bool
    ensures { result ≡ member keys.now key }
{
    keys.iter()
        .any(|held| basics::same(&held.bytes, &key.bytes))
}

// The keys of a stored list, of any length and any bytes.
#[tactic(auto, unfolding(crate::specs::StoredList::reading, crate::specs::StoredList::reading_under, crate::specs::StoredList::well_sized))]
pub fn read(src: &[u8]) -> Option<AccountKeys>
    ensures { result ≡ reading src.now }
{
    match src {
        [_, _, OLDER, _, ..] => read_under(src, OLDER, OLDER_LIMIT),
        [_, _, _, _, ..] => read_under(src, NEWER, LIMIT),
        _ => None,
    }
}

// The keys of a list of one version, with at most `most` keys.
#[tactic(auto, unfolding(crate::specs::StoredList::reading_under, crate::specs::StoredList::well_sized))]
fn read_under(src: &[u8], version: u8, most: usize) -> Option<AccountKeys>
    requires { (4 ≤ length src.now) × (most ≤ limit) }
    ensures { result ≡ reading_under version most src.now }
{
    let length = u16::from_be_bytes([src[0], src[1]]) as usize;
    let n = src[3] as usize;
    if length != src.len() - 2 || src[2] != version || most < n || src.len() != 4 + 16 * n {
        return None;
    }
    read_keys(src, n)
}

// The `n` keys after the header, each checked against those before it.
fn read_keys(src: &[u8], n: usize) -> Option<AccountKeys>
    requires { (n ≤ limit) × (length src.now ≡ 4 + 16 * n) }
    ensures { result ≡ reading_of (keys_in src.now n) }
{
    let mut keys = AccountKeys::none();
    for i in 0..n {
        let key = AccountKey {
            bytes: basics::part(src, 4 + 16 * i),
        };
        if key.bytes[0] != 0x04 || among(&keys.keys[..i], key) {
            return None;
        }
        // stored here, and not by `push`: that would copy the list at every key
        keys.keys[i] = key;
        keys.count = i + 1;
    }
    Some(keys)
}

//! Header fields, and the head that they stand in.
ghost use Rattle.std.specs.Prelude.{◌≡◌, List, ℕ, [], ◌∷◌, ◌++◌, IfOk, OnOk, OnErr};

use kj_base::{Bytes, NoMemory};
use std::alloc::Global;
use std::marker::Model;

/// A field line's name, and its value without the spaces and tabs around it (RFC 9112, section 5).
#[derive(Debug, Drop)]
pub struct Field {
    pub name: Bytes,
    pub value: Bytes,
}

impl Field {
    /// A field without name and value.
    pub fn new(alloc: Global) -> Field
        ensures name { result.name ≡ [] }
        ensures value { result.value ≡ [] }
    {
        Field {
            name: Bytes::new(alloc),
            value: Bytes::new(alloc),
        }
    }

    // A copy of both.
    fn of(alloc: Global, name: &[u8], value: &[u8]) -> Result<Field, NoMemory>
        ensures { IfOk result (λ field. field ≡ record { name = name.now; value = value.now }) }
    {
        let name = Bytes::from_slice(alloc, name)?;
        let value = Bytes::from_slice(alloc, value)?;
        Ok(Field { name, value })
    }

    fn refill(&mut self, name: &[u8], value: &[u8]) -> Result<(), NoMemory>
        ensures name { OnOk result (self.new.name ≡ name.now) }
        ensures value { OnOk result (self.new.value ≡ value.now) }
    {
        refill(&mut self.name, name)?;
        refill(&mut self.value, value)
    }
}

// Other octets, in the same memory where there is room.
pub(crate) fn refill(bytes: &mut Bytes, octets: &[u8]) -> Result<(), NoMemory>
    ensures { OnOk result (bytes.new ≡ octets.now) }
{
    bytes.truncate(0);
    bytes.extend(octets)
}

/// Field lines in their order, which contracts see as a list. Behind them it keeps the memory of
/// fields that it had before.
#[derive(Debug, Drop)]
pub struct Fields {
    items: Vec<Field>,
    count: usize,
}

impl Model for Fields {
    ghost use Rattle.std.specs.Prelude.{List, ◌≤◌, take, length};
    ghost use Rattle.http_heads.specs.declared.field.Field.{Field};

    ghost Value = { List Field };

    ghost view = { λ f. take f.count f.items.items };

    ghost invariant = { λ f. f.count ≤ length f.items.items };
}

impl Fields {
    /// No fields.
    pub fn new(alloc: Global) -> Fields
        ensures { result ≡ [] }
    {
        Fields {
            items: Vec::new(alloc),
            count: 0,
        }
    }

    /// Takes no memory.
    pub fn from_vec(items: Vec<Field>) -> Fields
        ensures { result ≡ items.items }
    {
        let count = items.len();
        Fields { items, count }
    }

    /// Takes no memory.
    pub fn into_vec(mut self) -> Vec<Field>
        ensures { result.items ≡ self }
    {
        self.items.truncate(self.count);
        self.items
    }

    /// The fields in order.
    pub fn as_slice(&self) -> &[Field]
        ensures { result.now ≡ self.now }
    {
        &self.items[..self.count]
    }

    /// Adds a field behind the others.
    pub fn push(&mut self, field: Field) -> Result<(), NoMemory>
        ensures ok { OnOk result (self.new ≡ self.old ++ field ∷ []) }
        ensures err { OnErr result (self.new ≡ self.old) }
    {
        self.items.truncate(self.count);
        self.items.push(field)?;
        self.count += 1;
        Ok(())
    }

    /// Takes the fields away, and keeps their memory.
    pub fn clear(&mut self)
        ensures { self.new ≡ [] }
    {
        self.count = 0;
    }

    // Makes room for so many fields in all.
    pub(crate) fn reserve(&mut self, count: usize) -> Result<(), NoMemory>
        ensures { self.new ≡ self.old }
    {
        self.items.reserve(count.saturating_sub(self.items.len()))?;
        Ok(())
    }

    // Copies a field behind the others, into memory that is kept where there is some.
    pub(crate) fn append(
        &mut self,
        alloc: Global,
        name: &[u8],
        value: &[u8],
    ) -> Result<(), NoMemory>
        ensures ok { OnOk result
            (self.new ≡ self.old ++ record { name = name.now; value = value.now } ∷ []) }
        ensures err { OnErr result (self.new ≡ self.old) }
    {
        if self.count == self.items.len() {
            let field = Field::of(alloc, name, value)?;
            return self.push(field);
        }
        let field = &mut self.items[self.count];
        field.refill(name, value)?;
        self.count += 1;
        Ok(())
    }
}

/// The head of a request: its start line's parts (RFC 9112, section 3) and its fields. `minor` is 0
/// for HTTP/1.0 and 1 for HTTP/1.1.
#[derive(Debug, Drop)]
pub struct Head {
    pub method: Bytes,
    pub target: Bytes,
    pub minor: u8,
    pub fields: Fields,
}

impl Head {
    /// The head of no request: its parts are empty.
    pub fn new(alloc: Global) -> Head {
        Head {
            method: Bytes::new(alloc),
            target: Bytes::new(alloc),
            minor: 0,
            fields: Fields::new(alloc),
        }
    }
}

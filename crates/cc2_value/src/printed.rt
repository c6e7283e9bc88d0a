//! Whether a value prints nothing.
use serde::{Case, Serialize, Serializer};

/// Whether a value prints nothing, as a table none of whose fields is set. An entry of a map is
/// printed, even where its value isn't. It takes no memory.
pub fn prints_nothing<T: Serialize>(value: &T) -> bool {
    value.serialize(&mut Silent).is_ok()
}

// What something printed is refused with.
#[derive(Drop)]
struct Printed;

// A serializer of what prints nothing: absent values, the keys of fields, and the two ends of a table.
#[derive(Drop)]
struct Silent;

impl Serializer for Silent {
    type Error = Printed;

    fn bool(&mut self, _v: bool) -> Result<(), Printed> {
        Err(Printed)
    }

    fn i64(&mut self, _v: i64) -> Result<(), Printed> {
        Err(Printed)
    }

    fn u64(&mut self, _v: u64) -> Result<(), Printed> {
        Err(Printed)
    }

    fn i128(&mut self, _v: i128) -> Result<(), Printed> {
        Err(Printed)
    }

    fn u128(&mut self, _v: u128) -> Result<(), Printed> {
        Err(Printed)
    }

    fn f32(&mut self, _v: f32) -> Result<(), Printed> {
        Err(Printed)
    }

    fn f64(&mut self, _v: f64) -> Result<(), Printed> {
        Err(Printed)
    }

    fn char(&mut self, _v: char) -> Result<(), Printed> {
        Err(Printed)
    }

    fn str(&mut self, _v: &str) -> Result<(), Printed> {
        Err(Printed)
    }

    fn bytes(&mut self, _v: &[u8]) -> Result<(), Printed> {
        Err(Printed)
    }

    fn unit(&mut self) -> Result<(), Printed> {
        Ok(())
    }

    fn str_cased(&mut self, _name: &str, _case: Case) -> Result<(), Printed> {
        Err(Printed)
    }

    fn begin_seq(&mut self, _len: Option<usize>) -> Result<(), Printed> {
        Err(Printed)
    }

    fn end_seq(&mut self) -> Result<(), Printed> {
        Ok(())
    }

    fn begin_map(&mut self, _len: Option<usize>) -> Result<(), Printed> {
        Ok(())
    }

    fn end_map(&mut self) -> Result<(), Printed> {
        Ok(())
    }

    fn key_cased(&mut self, _name: &str, _case: Case) -> Result<(), Printed> {
        Ok(())
    }

    fn variant_key(&mut self, _name: &str, _case: Case) -> Result<(), Printed> {
        Err(Printed)
    }

    fn begin_key(&mut self) -> Result<(), Printed> {
        Err(Printed)
    }

    fn end_key(&mut self) -> Result<(), Printed> {
        Ok(())
    }

    fn flatten_next(&mut self) -> Result<(), Printed> {
        Ok(())
    }

    fn custom(&self, _message: &str) -> Printed {
        Printed
    }
}

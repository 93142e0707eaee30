//! Arrays that own their values.

ghost use Rattle.std.specs.Prelude.{◌≡◌, map, IfOk};

use crate::bson_values::Bson;
use crate::copying::push_copy;
use std::alloc::AllocError;
use std::marker::Model;

/// An array: its values, in order.
#[derive(Debug, Drop)]
#[cycle(bson)]
pub struct Array {
    values: Vec<Bson>,
}

impl Model for Array {
    ghost use Rattle.std.specs.Prelude.{List, map};
    ghost use Rattle.bson_raw.specs.{TreeValue};
    ghost use Rattle.bson_doc.specs.Depths.{tree_depth};
    ghost use Rattle.bson_doc.specs.Array.{array_tree};
    ghost use Rattle.bson_doc.specs.Codes.{coded_values};

    ghost Value = { List TreeValue };

    ghost coded = { coded_values };

    ghost use Rattle.bson_doc.specs.Bson.{value_of};

    ghost view = { λ a. map value_of a.values.items };

    ghost size = { λ vs. tree_depth (array_tree 0 vs) };

    ghost use Rattle.bson_doc.specs.Sizes.{array_deeper};

    ghost size_decreases = { λ a h. array_deeper 0 a.values.items };
}

impl Array {
    ghost use Rattle.bson_doc.specs.Bson.{value_of};

    /// Returns the array of these values. It takes no memory.
    pub fn from_vec(values: Vec<Bson>) -> Array
        ensures { result ≡ map value_of values.items }
    {
        Array { values }
    }

    /// Returns the values. It takes no memory.
    pub fn into_vec(self) -> Vec<Bson>
        ensures { map value_of result.items ≡ self }
    {
        let Array { values } = self;
        values
    }

    /// Returns the values, in order.
    pub fn as_slice(&self) -> &[Bson]
        ensures { map value_of result.now ≡ self.now }
    {
        &self.values
    }

    /// Returns a copy of the array.
    ///
    /// # Errors
    ///
    /// Returns `AllocError` if memory is refused.
    #[cycle(copy)]
    pub fn try_clone(&self) -> Result<Array, AllocError>
        ensures { IfOk result (λ copy. copy ≡ self.now) }
    {
        let mut values = Vec::with_capacity(*self.values.allocator(), self.values.len())?;
        for value in self.values.iter() {
            push_copy(value.try_clone(), &mut values)?;
        }
        Ok(Array { values })
    }
}

impl PartialEq for Array {
    ghost use Rattle.std.specs.Cmp.{partial_equiv_from_equiv};
    ghost use Rattle.bson_doc.specs.Codes.{coded_values};
    ghost use Rattle.bson_doc.specs.Same.{same, same_equiv};

    ghost eq = { same coded_values };

    ghost laws = { partial_equiv_from_equiv (same_equiv coded_values) };

    #[cycle(same)]
    fn eq(&self, other: &Array) -> bool {
        if self.values.len() != other.values.len() {
            return false;
        }
        for (i, value) in self.values.iter().enumerate() {
            if !value.eq(&other.values[i]) {
                return false;
            }
        }
        true
    }
}

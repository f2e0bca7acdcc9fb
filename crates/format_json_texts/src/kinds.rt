//! The kind of a value, and its contents.
ghost use Rattle.format_json_texts.specs.Kinds.{AreElements, AreMembers, Has, IsAt, IsGot};
ghost use Rattle.format_json_texts.specs.Kinds.{IsInteger, IsLastNamed, IsNatural, ShowsText};
ghost use Rattle.format_json_texts.specs.declared.value.Value as values;
ghost use Rattle.std.specs.Prelude.{◌≡◌, ◌↔◌, IsTrue, option_map};

use crate::value::Value;
use std::alloc::Allocator;

impl<A: Allocator> Value<A> {
    /// Whether it is the word `null`.
    ///
    /// ```
    /// use format_json_texts::value::Value;
    /// use std::alloc::Global;
    ///
    /// let value: Value<Global> = Value::Null;
    /// assert!(rt; value.is_null());
    /// ```
    pub fn is_null(&self) -> bool
        ensures { IsTrue result ↔ self.now ≡ values.Null }
    {
        matches!(self, Value::Null)
    }

    /// The word `true` or `false`; none where it is neither.
    ///
    /// ```
    /// use format_json_texts::value::Value;
    /// use std::alloc::Global;
    ///
    /// let value: Value<Global> = Value::Boolean(false);
    /// assert_eq!(rt; value.as_bool(), Some(false));
    /// assert_eq!(rt; Value::<Global>::Null.as_bool(), None);
    /// ```
    pub fn as_bool(&self) -> Option<bool>
        ensures { Has values.Boolean (λ b shown. shown ≡ b) self.now result }
    {
        match self {
            Value::Boolean(is) => Some(*is),
            _ => None,
        }
    }

    /// Returns the text of a number as it is written, or `None` if the value is not a number.
    ///
    /// ```
    /// use format_json_texts::value::Value;
    /// use std::alloc::Global;
    ///
    /// let number: Value<Global> = Value::Number(String::from_str(alloc, "12").unwrap());
    /// assert_eq!(rt; number.as_number(), Some("12"));
    /// assert_eq!(rt; number.as_str(), None);
    /// ```
    pub fn as_number(&self) -> Option<&str>
        ensures { Has values.Number ShowsText self.now result }
    {
        match self {
            Value::Number(text) => Some(text.as_str()),
            _ => None,
        }
    }

    /// Returns the integer that a number is written as. Returns `None` if the value is not a
    /// number, if its text has a point or an exponent, or if the integer does not fit 64 bits with
    /// a sign.
    ///
    /// ```
    /// use format_json_texts::value::Value;
    /// use std::alloc::Global;
    ///
    /// let value: Value<Global> = Value::Number(String::from_str(alloc, "-12").unwrap());
    /// assert_eq!(rt; value.as_i64(), Some(-12));
    /// let value: Value<Global> = Value::Number(String::from_str(alloc, "1e2").unwrap());
    /// assert_eq!(rt; value.as_i64(), None);
    /// ```
    pub fn as_i64(&self) -> Option<i64>
        ensures { IsInteger self.now result }
    {
        match self {
            Value::Number(text) => text.as_str().parse::<i64>().ok(),
            _ => None,
        }
    }

    /// As [`as_i64`](Value::as_i64), of 64 bits without a sign; so of a text with a minus there is
    /// none, that of `-0` too.
    ///
    /// ```
    /// use format_json_texts::value::Value;
    /// use std::alloc::Global;
    ///
    /// let most = "18446744073709551615";
    /// let value: Value<Global> = Value::Number(String::from_str(alloc, most).unwrap());
    /// assert_eq!(rt; value.as_u64(), Some(u64::MAX));
    /// assert_eq!(rt; value.as_i64(), None);
    /// ```
    pub fn as_u64(&self) -> Option<u64>
        ensures { IsNatural self.now result }
    {
        match self {
            Value::Number(text) => text.as_str().parse::<u64>().ok(),
            _ => None,
        }
    }

    /// Returns a string, with its escapes undone, or `None` if the value is not a string.
    ///
    /// ```
    /// use format_json_texts::value::Value;
    /// use std::alloc::Global;
    ///
    /// let text: Value<Global> = Value::Text(String::from_str(alloc, "12").unwrap());
    /// assert_eq!(rt; text.as_str(), Some("12"));
    /// assert_eq!(rt; text.as_number(), None);
    /// ```
    pub fn as_str(&self) -> Option<&str>
        ensures { Has values.Text ShowsText self.now result }
    {
        match self {
            Value::Text(text) => Some(text.as_str()),
            _ => None,
        }
    }

    /// Returns the elements of an array, or `None` if the value is not an array.
    ///
    /// ```
    /// use format_json_texts::value::Value;
    /// use std::alloc::Global;
    ///
    /// let mut items = Vec::new(alloc);
    /// items.push(Value::Boolean(true)).unwrap();
    /// let value: Value<Global> = Value::Array(items);
    /// assert!(rt; matches!(value.as_array(), Some(items) if items.len() == 1));
    /// assert!(rt; value.as_object().is_none());
    /// ```
    pub fn as_array(&self) -> Option<&[Value<A>]>
        ensures { Has values.Array (λ list shown. shown.now ≡ list.items) self.now result }
    {
        match self {
            Value::Array(items) => Some(items.as_slice()),
            _ => None,
        }
    }

    /// Returns the members of an object, each a name and a value, or `None` if the value is not an
    /// object.
    ///
    /// ```
    /// use format_json_texts::value::Value;
    /// use std::alloc::Global;
    ///
    /// let mut members = Vec::new(alloc);
    /// members.push((String::from_str(alloc, "a").unwrap(), Value::Boolean(true))).unwrap();
    /// let value: Value<Global> = Value::Object(members);
    /// assert!(rt; matches!(value.as_object(), Some(members) if members.len() == 1));
    /// assert!(rt; value.as_array().is_none());
    /// ```
    pub fn as_object(&self) -> Option<&[(String<A>, Value<A>)]>
        ensures { Has values.Object (λ list shown. shown.now ≡ list.items) self.now result }
    {
        match self {
            Value::Object(members) => Some(members.as_slice()),
            _ => None,
        }
    }

    /// Returns the elements of an array, to iterate over, or an empty slice for any other value.
    ///
    /// ```
    /// use format_json_texts::value::Value;
    /// use std::alloc::Global;
    ///
    /// let mut items = Vec::new(alloc);
    /// items.push(Value::Boolean(true)).unwrap();
    /// let value: Value<Global> = Value::Array(items);
    /// for item in value.elements() {
    ///     assert_eq!(rt; item.as_bool(), Some(true));
    /// }
    /// assert!(rt; Value::<Global>::Null.elements().is_empty());
    /// ```
    pub fn elements(&self) -> &[Value<A>]
        ensures { AreElements self.now result.now }
    {
        match self {
            Value::Array(items) => items.as_slice(),
            _ => &[],
        }
    }

    /// Returns the members of an object, each a name and a value, to iterate over, or an empty
    /// slice for any other value.
    ///
    /// ```
    /// use format_json_texts::value::Value;
    /// use std::alloc::Global;
    ///
    /// let mut members = Vec::new(alloc);
    /// members.push((String::from_str(alloc, "a").unwrap(), Value::Boolean(true))).unwrap();
    /// let value: Value<Global> = Value::Object(members);
    /// for member in value.members() {
    ///     assert_eq!(rt; member.0.as_str(), "a");
    /// }
    /// assert!(rt; Value::<Global>::Null.members().is_empty());
    /// ```
    pub fn members(&self) -> &[(String<A>, Value<A>)]
        ensures { AreMembers self.now result.now }
    {
        match self {
            Value::Object(members) => members.as_slice(),
            _ => &[],
        }
    }

    /// Returns the element of an array at `index`, counted from 0. Returns `None` if there is no
    /// such element, or if the value is not an array.
    ///
    /// ```
    /// use format_json_texts::value::Value;
    /// use std::alloc::Global;
    ///
    /// let mut items = Vec::new(alloc);
    /// items.push(Value::Boolean(true)).unwrap();
    /// let value: Value<Global> = Value::Array(items);
    /// assert!(rt; matches!(value.at(0), Some(Value::Boolean(true))));
    /// assert!(rt; value.at(1).is_none());
    /// ```
    pub fn at(&self, index: usize) -> Option<&Value<A>>
        ensures { IsAt self.now index (option_map (λ v. v.now) result) }
    {
        self.elements().get(index)
    }

    /// Returns the value of the last member with this name, as other JSON parsers do. Returns
    /// `None` if no member has the name, or if the value is not an object. It searches the members
    /// from the last to the first.
    ///
    /// ```
    /// use format_json_texts::value::Value;
    /// use std::alloc::Global;
    ///
    /// let mut members = Vec::new(alloc);
    /// members.push((String::from_str(alloc, "a").unwrap(), Value::Boolean(true))).unwrap();
    /// let value: Value<Global> = Value::Object(members);
    /// assert!(rt; matches!(value.get("a"), Some(Value::Boolean(true))));
    /// assert!(rt; value.get("b").is_none());
    /// ```
    pub fn get(&self, name: &str) -> Option<&Value<A>>
        ensures { IsGot self.now name.now (option_map (λ v. v.now) result) }
    {
        last_named(self.members(), name)
    }
}

/// The value of the last member of this name.
fn last_named<'v, A: Allocator>(
    members: &'v [(String<A>, Value<A>)],
    name: &str,
) -> Option<&'v Value<A>>
    ensures { IsLastNamed name.now members.now (option_map (λ v. v.now) result) }
{
    let mut left = members;
    'members: while let Some((last, others)) = left.split_last() {
        if last.0.as_str() == name {
            return Some(&last.1);
        }
        left = others;
    }
    None
}

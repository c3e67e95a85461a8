// Values in order.
ghost use Rattle.std.specs.Prelude.{◌≡◌};

use std::marker::Model;

/// Values in order, kept in a `Vec`. Contracts see their list.
#[derive(Debug, Drop)]
pub struct Sequence<T> {
    list: Vec<T>,
}

impl<T> Model for Sequence<T> {
    ghost use Rattle.std.specs.Prelude.{List};
    ghost use Rattle.std.specs.Coded.{coded_list};

    ghost Value = { List T };

    ghost coded = { coded_list T.code };

    ghost view = { λ sequence. sequence.list.items };
}

impl<T> Sequence<T> {
    /// The values of a list, in its order. Takes no memory.
    pub fn new(list: Vec<T>) -> Sequence<T>
        ensures { result ≡ list.items }
    {
        Sequence { list }
    }

    /// The values in order.
    pub fn as_slice(&self) -> &[T]
        ensures { result.now ≡ self.now }
    {
        &self.list
    }

    /// The list that the values are kept in. Takes no memory.
    pub fn into_vec(self) -> Vec<T>
        ensures { result.items ≡ self }
    {
        self.list
    }
}

//! A JSON text in the making.

use flash_base::{Bytes, NoMemory};
use json::Writer;
use std::alloc::Global;
use std::marker::Model;

/// A JSON text in the making, which contracts see as the tokens that were written.
#[derive(Drop)]
pub(crate) struct Out {
    inner: Writer,
}

impl Model for Out {
    ghost use Rattle.std.specs.Prelude.{◌≡◌, List, []};
    ghost use Rattle.json.specs.Token.{Token, tokens_code};

    ghost Value = { List Token };

    ghost coded = { tokens_code };

    ghost view = { λ o. o.inner.tokens };

    ghost invariant = { λ o. o.inner.before ≡ [] };
}

impl Out {
    ghost use Rattle.std.specs.Prelude.{◌≡◌, ◌<◌, ◌^◌, ◌++◌, ◌∷◌, [], true, OnOk, decimal};
    ghost use Rattle.std.specs.Str.{IsUtf8};
    ghost use Rattle.json.specs.Lex.{tokens};
    ghost use Rattle.json.specs.Print.{print};
    ghost use Rattle.json.specs.Token.{begin_array, begin_object, boolean, end_array, end_object, key, number, string};

    pub(crate) fn new(alloc: Global) -> Out
        ensures { result ≡ [] }
    {
        Out {
            inner: Writer::new(Vec::new(alloc)),
        }
    }

    /// The bytes of the text.
    pub(crate) fn finish(self) -> Bytes
        ensures text { result ≡ print self }
        ensures tokens { tokens result ≡ self }
        ensures utf8 { IsUtf8 result }
    {
        Bytes::from_vec(self.inner.into_inner())
    }

    pub(crate) fn begin_object(&mut self) -> Result<(), NoMemory>
        ensures { OnOk result (self.new ≡ self.old ++ begin_object ∷ []) }
    {
        Ok(self.inner.begin_object()?)
    }

    pub(crate) fn end_object(&mut self) -> Result<(), NoMemory>
        ensures { OnOk result (self.new ≡ self.old ++ end_object ∷ []) }
    {
        Ok(self.inner.end_object()?)
    }

    pub(crate) fn begin_array(&mut self) -> Result<(), NoMemory>
        ensures { OnOk result (self.new ≡ self.old ++ begin_array ∷ []) }
    {
        Ok(self.inner.begin_array()?)
    }

    pub(crate) fn end_array(&mut self) -> Result<(), NoMemory>
        ensures { OnOk result (self.new ≡ self.old ++ end_array ∷ []) }
    {
        Ok(self.inner.end_array()?)
    }

    pub(crate) fn key(&mut self, name: &str) -> Result<(), NoMemory>
        ensures { OnOk result (self.new ≡ self.old ++ key name.now ∷ []) }
    {
        Ok(self.inner.key(name)?)
    }

    pub(crate) fn string(&mut self, text: &str) -> Result<(), NoMemory>
        ensures { OnOk result (self.new ≡ self.old ++ string text.now ∷ []) }
    {
        Ok(self.inner.string(text)?)
    }

    pub(crate) fn whole(&mut self, n: u64) -> Result<(), NoMemory>
        ensures is { OnOk result (self.new ≡ self.old ++ number (decimal n) ∷ []) }
        ensures fits { OnOk result (n < 2 ^ 64) }
    {
        Ok(self.inner.u64(n)?)
    }

    pub(crate) fn yes(&mut self) -> Result<(), NoMemory>
        ensures { OnOk result (self.new ≡ self.old ++ boolean true ∷ []) }
    {
        Ok(self.inner.boolean(true)?)
    }
}

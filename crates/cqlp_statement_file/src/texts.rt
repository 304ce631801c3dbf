//! Texts of statements by their ids.

ghost use Rattle.std.specs.Prelude.{◌≡◌, [], ◌∷◌, ◌++◌, OnErr, OnOk, option_copied};
ghost use Rattle.cqlp_statement_file.specs.Texts.{FindAlike, is_none, kept, text_of};

use crate::text::StatementText;
use std::alloc::{AllocError, Global};
use std::collections::BTreeMap;
use std::marker::Model;

/// Texts of statements by their ids, of each the first that was added.
#[derive(Drop)]
pub struct StatementTexts {
    alloc: Global,
    texts: BTreeMap<Vec<u8>, StatementText>,
}

impl Model for StatementTexts {
    ghost use Rattle.cqlp_statement_file.specs.Texts.{Texts, texts_in};

    ghost Value = { Texts };

    ghost view = { λ t. texts_in t.texts.entries };
}

impl StatementTexts {
    /// None. Takes no memory.
    pub fn new(alloc: Global) -> Self
        ensures { result ≡ [] }
    {
        StatementTexts {
            alloc,
            texts: BTreeMap::new(alloc),
        }
    }

    /// Whether there are none.
    pub fn is_empty(&self) -> bool
        ensures { result ≡ is_none self.now }
    {
        self.texts.len() == 0
    }

    /// The text of the statement with this id.
    pub fn get(&self, id: &[u8]) -> Option<&StatementText>
        ensures { option_copied result ≡ text_of self.now id.now }
    {
        self.texts.get(id)
    }

    /// Adds a statement, if none has its id. Where memory is refused, nothing changes.
    pub fn add(&mut self, id: Vec<u8>, text: &str) -> Result<(), AllocError>
        ensures ok { OnOk result (FindAlike self.new (self.old ++ (id.items, kept text.now) ∷ [])) }
        ensures err { OnErr result (self.new ≡ self.old) }
    {
        if self.get(id.as_slice()).is_some() {
            return Ok(());
        }
        let text = StatementText::new(self.alloc, text)?;
        match self.texts.insert(id, text) {
            Ok(_) => Ok(()),
            Err(_) => Err(AllocError),
        }
    }
}

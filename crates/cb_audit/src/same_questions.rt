//! Equality of questions.
use crate::same::Same;
use cb_hall::{GivenBlock, Question, Request, Sought, ToldBefore};

impl Same for GivenBlock {
    fn same(&self, other: &GivenBlock) -> bool {
        self.capable == other.capable && self.block.same(&other.block)
    }
}

impl Same for Sought {
    fn same(&self, other: &Sought) -> bool {
        self.header.same(&other.header) && self.nonce == other.nonce && self.ids.same(&other.ids)
    }
}

impl Same for ToldBefore {
    fn same(&self, other: &ToldBefore) -> bool {
        self.tip.same(&other.tip) && self.from == other.from && self.whole == other.whole
    }
}

impl Same for Request {
    fn same(&self, other: &Request) -> bool {
        match self {
            Request::Items(entries) => {
                matches!(other, Request::Items(others) if entries.same(others))
            }
            Request::After(locator, stop) => {
                matches!(other, Request::After(others, last)
                    if locator.same(others) && stop.same(last))
            }
            Request::Places(hash, differences) => {
                matches!(other, Request::Places(name, others)
                    if hash.same(name) && differences.same(others))
            }
        }
    }
}

impl Same for Question {
    fn same(&self, other: &Question) -> bool {
        match self {
            Question::Admit => matches!(other, Question::Admit),
            Question::Headers(headers) => {
                matches!(other, Question::Headers(others) if headers.same(others))
            }
            Question::Locator => matches!(other, Question::Locator),
            Question::Want(entries) => {
                matches!(other, Question::Want(others) if entries.same(others))
            }
            Question::GiveTx(tx) => matches!(other, Question::GiveTx(theirs) if tx.same(theirs)),
            Question::GiveBlock(given) => {
                matches!(other, Question::GiveBlock(theirs) if given.same(theirs))
            }
            Question::Serve(request) => {
                matches!(other, Question::Serve(theirs) if request.same(theirs))
            }
            Question::News(told) => matches!(other, Question::News(theirs) if told.same(theirs)),
            Question::Match(sought) => {
                matches!(other, Question::Match(theirs) if sought.same(theirs))
            }
        }
    }
}

//! What is left to be packed of a list: the rests of the items that have begun, one of each class at most, and those that have not.
ghost use Rattle.std.specs.Prelude.{◌≡◌, ◌+◌, ◌-◌, ◌%◌, ◌≤◌, ◌∷◌, [], true, length, drop, map, Some, None, IfSome, IfNone};
ghost use Rattle.gse_pack.specs.Forms.{pdu_by, rules_by, FormFits};
ghost use Rattle.gse_pack.specs.Views.{pdu_in, rest_or_none};

use crate::pdu::{Form, Pdu, pdu_of};
use crate::turn::{Next, Rest, Turn};
use crate::urgent::is_urgent;
use addr_rules::Label;
use ip_datagram::DatagramList;
use std::marker::Model;

/// The frames in which an ordinary PDU yields to urgent ones: the one in which it starts, and seven more.
const YIELDING: u8 = 8;

/// The first Frag ID of urgent PDUs, and how many there are.
const URGENT_IDS: u8 = 128;

/// What is left to be packed; contracts see it as the definitions do.
#[derive(Drop)]
pub(crate) struct Left<'a> {
    list: &'a DatagramList,
    /// How its items become PDUs, and which are urgent.
    form: Form<'a>,
    /// How many of them have begun.
    begun: usize,
    /// What is left of an urgent PDU that has begun.
    urgent_rest: Option<Rest<'a>>,
    /// What is left of an ordinary one.
    rest: Option<Rest<'a>>,
    /// In how many frames from this one on the ordinary one yields.
    yields: u8,
    /// The Frag ID of the next ordinary PDU in fragments.
    id: u8,
    /// The Frag ID of the next urgent one.
    urgent_id: u8,
}

impl<'a> Model for Left<'a> {
    ghost use Rattle.std.specs.Prelude.{◌≤◌, map, drop};
    ghost use Rattle.gse_pack.specs.Forms.{pdu_by, rules_by, FormFits};
    ghost use Rattle.gse_pack.specs.Steps.{IsShortRest, Unsent};
    ghost use Rattle.gse_pack.specs.Views.{rest_or_none};

    ghost Value = { Unsent };

    ghost view = { λ l. record {
      rules = rules_by l.form;
      now = record {
        id = l.id;
        urgent_id = l.urgent_id;
        urgent_rest = rest_or_none l.urgent_rest;
        rest = rest_or_none l.rest;
        yields = l.yields;
        pdus = map (pdu_by l.form) (drop l.begun l.list.now);
      };
    } };

    ghost invariant = { λ l. FormFits l.form l.list.now × IsShortRest (rest_or_none l.urgent_rest)
        × IsShortRest (rest_or_none l.rest) × (128 ≤ l.urgent_id) };
}

impl<'a> Left<'a> {
    ghost use Rattle.std.specs.Prelude.{◌≡◌, ◌≤◌, ◌∷◌, [], false, length, drop, map, Some, None, IfSome, IfNone};
    ghost use Rattle.gse_spec.specs.Packing.{id_after, none_begun, after_urgent, after_ordinary};
    ghost use Rattle.gse_spec.specs.Classes.{is_urgent_pdu, ids_for};
    ghost use Rattle.gse_law.specs.Packed.{IsShortPdu};
    ghost use Rattle.gse_pack.specs.Steps.{Unsent, IsShort, IsShortRest, IsTurn, BeginsNext, GoesOnWith, is_over, next_of, after_of, framed};

    /// All items of the list, which have at most 65,527 bytes each.
    pub(crate) fn over(list: &'a DatagramList, form: Form<'a>) -> Left<'a>
        requires items { FormFits form list.now }
        ensures begins { result ≡ record { rules = rules_by form.entry; now = none_begun (ids_for (rules_by form.entry)) (map (pdu_by form.entry) list.now) } }
        ensures short { IsShort result }
    {
        Left {
            list,
            form,
            begun: 0,
            urgent_rest: None,
            rest: None,
            yields: 0,
            id: 0,
            urgent_id: URGENT_IDS,
        }
    }

    /// Whether nothing is left.
    pub(crate) fn is_empty(&self) -> bool
        ensures read { result ≡ is_over self.now }
    {
        self.urgent_rest.is_none() && self.rest.is_none() && self.begun >= self.list.len()
    }

    /// The next PDU that has not begun.
    fn next(&self) -> Option<Next<'a>>
        ensures next { IfSome result (λ next. self.now.now.pdus ≡ pdu_in next.pdu ∷ drop 1 self.now.now.pdus) }
        ensures class { IfSome result (λ next. is_urgent_pdu self.now.rules (pdu_in next.pdu) ≡ next.urgent) }
        ensures none { IfNone result (self.now.now.pdus ≡ []) }
    {
        let list = self.list;
        if self.begun >= list.len() {
            return None;
        }
        let item = list.at(self.begun);
        match self.form {
            Form::Datagrams {
                address,
                unicast,
                urgent,
            } => {
                let pdu = pdu_of(item, address, unicast);
                let urgent = is_urgent(item, urgent);
                Some(Next { pdu, urgent })
            }
            Form::OfType(protocol) => {
                let pdu = Pdu {
                    protocol,
                    label: Label::Broadcast,
                    bytes: item,
                };
                let urgent = false;
                Some(Next { pdu, urgent })
            }
        }
    }

    /// What is left is short enough for Total Length.
    fn are_short(&self)
        ensures short { IsShort self.now }
    {
        let _ = &self.list;
    }

    /// What is next beside an ordinary PDU that has begun.
    fn turn_beside(&self, rest: Rest<'a>) -> Turn<'a>
        requires none { self.now.now.urgent_rest ≡ None }
        requires rest { self.now.now.rest ≡ rest_or_none (Some rest) }
        ensures turn { IsTurn self.now result }
    {
        self.are_short();
        if self.yields == 0 {
            return Turn::GoesOn(rest);
        }
        match self.next() {
            Some(next) => {
                if next.urgent {
                    Turn::Begins(self.urgent_id, next)
                } else {
                    Turn::GoesOn(rest)
                }
            }
            None => Turn::GoesOn(rest),
        }
    }

    /// What is next where no PDU has begun.
    fn turn_alone(&self) -> Turn<'a>
        requires none { self.now.now.urgent_rest ≡ None }
        requires alone { self.now.now.rest ≡ None }
        ensures turn { IsTurn self.now result }
    {
        self.are_short();
        match self.next() {
            Some(next) => {
                if next.urgent {
                    Turn::Begins(self.urgent_id, next)
                } else {
                    Turn::Begins(self.id, next)
                }
            }
            None => Turn::Over,
        }
    }

    /// What is next.
    pub(crate) fn turn(&self) -> Turn<'a>
        ensures turn { IsTurn self.now result }
        ensures short { IsShort self.now }
    {
        self.are_short();
        match self.urgent_rest {
            Some(rest) => Turn::GoesOn(rest),
            None => match self.rest {
                Some(rest) => self.turn_beside(rest),
                None => self.turn_alone(),
            },
        }
    }

    /// The next PDU, an urgent one, was begun: whole, or so that this is left.
    fn begin_urgent(&mut self, rest: Option<Rest<'a>>)
        requires none { self.old.now.urgent_rest ≡ None }
        requires short { IsShortRest (rest_or_none rest) }
        ensures begun { self.new ≡ record {
          rules = self.old.rules;
          now = after_urgent (ids_for self.old.rules) self.old.now.id self.old.now.urgent_id self.old.now.rest self.old.now.yields (drop 1 self.old.now.pdus) (rest_or_none rest.entry);
        } }
    {
        if rest.is_some() {
            self.urgent_id = URGENT_IDS + self.urgent_id.wrapping_add(1) % URGENT_IDS;
        }
        self.urgent_rest = rest;
        self.pass();
    }

    /// The next PDU, an ordinary one, was begun: whole, or so that this is left.
    fn begin_ordinary(&mut self, rest: Option<Rest<'a>>)
        requires none { self.old.now.urgent_rest ≡ None }
        requires alone { self.old.now.rest ≡ None }
        requires short { IsShortRest (rest_or_none rest) }
        ensures begun { self.new ≡ record {
          rules = self.old.rules;
          now = after_ordinary (ids_for self.old.rules) self.old.now.id self.old.now.urgent_id self.old.now.yields (drop 1 self.old.now.pdus) (rest_or_none rest.entry);
        } }
    {
        if rest.is_some() {
            self.id = self.id_after();
            self.yields = YIELDING;
        }
        self.rest = rest;
        self.pass();
    }

    /// The next item has begun.
    fn pass(&mut self)
        ensures passed { self.new ≡ record {
          rules = self.old.rules;
          now = record {
            id = self.old.now.id;
            urgent_id = self.old.now.urgent_id;
            urgent_rest = self.old.now.urgent_rest;
            rest = self.old.now.rest;
            yields = self.old.now.yields;
            pdus = drop 1 self.old.now.pdus;
          };
        } }
    {
        if self.begun < self.list.len() {
            self.begun += 1;
        }
    }

    /// How many rules of urgent datagrams there are.
    fn rule_count(&self) -> usize
        ensures read { result ≡ length self.now.rules }
    {
        match self.form {
            Form::Datagrams { urgent, .. } => urgent.len(),
            Form::OfType(_) => 0,
        }
    }

    /// The Frag ID after that of the next ordinary PDU: one of 256, or of 128 where there are two classes.
    fn id_after(&self) -> u8
        ensures read { result ≡ id_after (ids_for self.now.rules).ordinary self.now.now.id }
    {
        if self.rule_count() == 0 {
            self.id.wrapping_add(1)
        } else {
            self.id.wrapping_add(1) % URGENT_IDS
        }
    }

    /// The next PDU was begun: whole, or so that this is left.
    pub(crate) fn begin(&mut self, id: u8, next: &Next<'a>, rest: Option<Rest<'a>>)
        requires next { BeginsNext self.old id next.now }
        requires short { IsShortRest (rest_or_none rest) }
        ensures begun { self.new ≡ after_of self.old (rest_or_none rest.entry) }
    {
        if next.urgent {
            self.begin_urgent(rest);
        } else {
            self.begin_ordinary(rest);
        }
    }

    /// The rest that is next went on, so that this is left of it.
    pub(crate) fn go_on(&mut self, old: &Rest<'a>, rest: Option<Rest<'a>>)
        requires next { GoesOnWith self.old old.now }
        requires short { IsShortRest (rest_or_none rest) }
        ensures left { self.new ≡ after_of self.old (rest_or_none rest.entry) }
    {
        if self.urgent_rest.is_some() {
            self.urgent_rest = rest;
        } else {
            self.rest = rest;
        }
    }

    /// The next frame begins.
    pub(crate) fn end_frame(&mut self)
        ensures ended { self.new ≡ framed self.old }
    {
        self.yields = self.yields.saturating_sub(1);
    }
}

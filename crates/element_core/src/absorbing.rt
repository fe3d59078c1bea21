//! What an element makes of the frames that come in each round.

ghost use Rattle.std.specs.Prelude.{◌≡◌};
ghost use Rattle.element_core.specs.ElementValue.{after_absorb, heard_with, frames_in};

use crate::hearing::{hear_copies, hear_echoes};
use crate::pending::is_quiet;
use crate::{Due, Element};
use ftpp_base::Round;
use link_fabric::Link;

impl<const N: usize> Element<N> {
    /// Takes the frame of a round from each other element, whatever its bytes are; those of B2 only where they matter.
    /// After B2 the cycle is over: heads are gone, the packet is delivered, an update is applied, and what was seen of the
    /// others is noted.
    pub fn absorb<L: Link<N>>(&mut self, round: Round, link: &mut L)
        requires due { self.old.due ≡ Due.Absorb round }
        requires owner { L.me link.old ≡ self.old.kept.me }
        ensures element { self.new ≡ after_absorb round (frames_in (L.came link.old)) self.old }
        ensures owner { L.me link.new ≡ L.me link.old }
        ensures came { L.came link.new ≡ L.came link.old }
        ensures leaves { L.leaves link.new ≡ L.leaves link.old }
    {
        match round {
            Round::A1 => self.hear_patterns(link),
            Round::A2 => self.hear_pattern_echoes(link),
            Round::B1 => self.hear_packets(link),
            Round::B2 => self.hear_last(link),
        }
    }

    /// Takes what the others hold of the packets, where it matters, and ends the cycle.
    fn hear_last<L: Link<N>>(&mut self, link: &mut L)
        requires due { self.old.due ≡ Due.Absorb Round.B2 }
        requires owner { L.me link.old ≡ self.old.kept.me }
        ensures element { self.new ≡ after_absorb Round.B2 (frames_in (L.came link.old)) self.old }
        ensures owner { L.me link.new ≡ L.me link.old }
        ensures came { L.came link.new ≡ L.came link.old }
        ensures leaves { L.leaves link.new ≡ L.leaves link.old }
    {
        if is_quiet(&self.pending.decision) {
            self.end_cycle();
        } else {
            self.hear_packet_echoes(link);
            self.end_cycle();
        }
    }

    /// Takes the patterns of the others, beside its own.
    fn hear_patterns<L: Link<N>>(&mut self, link: &mut L)
        requires due { self.old.due ≡ Due.Absorb Round.A1 }
        requires owner { L.me link.old ≡ self.old.kept.me }
        ensures element { self.new ≡ after_absorb Round.A1 (frames_in (L.came link.old)) self.old }
        ensures owner { L.me link.new ≡ L.me link.old }
        ensures came { L.came link.new ≡ L.came link.old }
        ensures leaves { L.leaves link.new ≡ L.leaves link.old }
    {
        let slot = self.kept.slot(Round::A1);
        self.patterns.first(Some(self.kept.pattern()));
        hear_copies(
            slot,
            self.kept.me(),
            link,
            &mut self.frame,
            &mut self.patterns,
        );
        self.due = Due::Emit(Round::A2);
    }

    /// Takes what the others hold of the patterns, and decides.
    fn hear_pattern_echoes<L: Link<N>>(&mut self, link: &mut L)
        requires due { self.old.due ≡ Due.Absorb Round.A2 }
        requires owner { L.me link.old ≡ self.old.kept.me }
        ensures element { self.new ≡ after_absorb Round.A2 (frames_in (L.came link.old)) self.old }
        ensures owner { L.me link.new ≡ L.me link.old }
        ensures came { L.came link.new ≡ L.came link.old }
        ensures leaves { L.leaves link.new ≡ L.leaves link.old }
    {
        let slot = self.kept.slot(Round::A2);
        hear_echoes(
            slot,
            self.kept.me(),
            link,
            &mut self.frame,
            &mut self.patterns,
        );
        self.pending.decide(&self.kept, &self.patterns);
        self.due = Due::Emit(Round::B1);
    }

    /// Takes the packets of the others, beside its own.
    fn hear_packets<L: Link<N>>(&mut self, link: &mut L)
        requires due { self.old.due ≡ Due.Absorb Round.B1 }
        requires owner { L.me link.old ≡ self.old.kept.me }
        ensures element { self.new ≡ after_absorb Round.B1 (frames_in (L.came link.old)) self.old }
        ensures owner { L.me link.new ≡ L.me link.old }
        ensures came { L.came link.new ≡ L.came link.old }
        ensures leaves { L.leaves link.new ≡ L.leaves link.old }
    {
        let slot = self.kept.slot(Round::B1);
        self.packets.first(self.kept.packet(&self.pending.decision));
        hear_copies(
            slot,
            self.kept.me(),
            link,
            &mut self.frame,
            &mut self.packets,
        );
        self.due = Due::Emit(Round::B2);
    }

    /// Takes what the others hold of the packets.
    fn hear_packet_echoes<L: Link<N>>(&mut self, link: &mut L)
        requires due { self.old.due ≡ Due.Absorb Round.B2 }
        requires owner { L.me link.old ≡ self.old.kept.me }
        ensures element { self.new ≡ record self.old { heard = heard_with self.old Round.B2 (frames_in (L.came link.old)) } }
        ensures owner { L.me link.new ≡ L.me link.old }
        ensures came { L.came link.new ≡ L.came link.old }
        ensures leaves { L.leaves link.new ≡ L.leaves link.old }
    {
        let slot = self.kept.slot(Round::B2);
        hear_echoes(
            slot,
            self.kept.me(),
            link,
            &mut self.frame,
            &mut self.packets,
        );
    }
}

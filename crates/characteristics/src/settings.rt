// Characteristics: obeying the message, and whether it is carried.
ghost use Rattle.std.specs.Prelude.{◌≡◌, List, ℕ};
ghost use Rattle.rules.specs.Choice.{all_are};
ghost use Rattle.rules.specs.Messages.Forms.{characteristics};
ghost use Rattle.rules.specs.Messages.Parameters.{selector};
ghost use Rattle.rules.specs.Characteristics.{is_carried, with_switch, with_parameter, with_parameters, carries_settings};
ghost use Rattle.parameters.specs.Lists.{ParameterIs, parameters_from, used_at};
ghost use Rattle.characteristics.specs.View.{switches_of, host_view, KeepsSettings};
ghost use Rattle.characteristics.specs.Lists.{settings_in};

use crate::attributes::{any_deferred_clear, with_attribute};
use crate::{Host, Switches};
use parameters::{Parameter, Parameters};
use rules::selectors;

// One of the five. Selectors are matched by their names, at each of their few uses; an enum of them would be one match more.
fn is_carried(selector: u16) -> bool
    ensures { result ≡ is_carried selector }
{
    matches!(
        selector,
        selectors::CHARACTER_ATTRIBUTES
            | selectors::RAISE_INPUT
            | selectors::NORMAL_ECHO
            | selectors::ESCAPE_RECOGNITION
            | selectors::AUTO_PROMPT
    )
}

// Every parameter of a list is one of the five.
pub(crate) fn all_carried(kind: u8, list: &[u8]) -> bool
    ensures { result ≡ all_are (λ p. is_carried (selector p)) (parameters_from kind 0 list.now) }
{
    Parameters::new(kind, list).all(|p| is_carried(p.selector))
}

impl Switches {
    // The switch of a selector turned on or off; no switch where it has none.
    fn with_switch(mut self, selector: u16, on: bool) -> Switches
        ensures { switches_of result ≡ with_switch selector on (switches_of self) }
    {
        match selector {
            selectors::RAISE_INPUT => self.raising = on,
            selectors::NORMAL_ECHO => self.echoing = on,
            selectors::ESCAPE_RECOGNITION => self.recognising = on,
            selectors::AUTO_PROMPT => self.prompting = on,
            _ => {}
        }
        self
    }
}

impl Host {
    // One parameter of a Characteristics message, wherever it stood.
    fn with_setting(self, p: Parameter) -> Host
        ensures same { (at : ℕ) (s : List ℕ) → ParameterIs characteristics at s p →
            host_view result ≡ with_parameter (used_at characteristics at s) (host_view self) }
        ensures kept { KeepsSettings self result }
    {
        if p.selector == selectors::CHARACTER_ATTRIBUTES {
            let attributes = with_attribute(self.attributes, p.first, p.second, p.third);
            return Host { attributes, ..self };
        }
        let switches = self.switches.with_switch(p.selector, p.first == fields::ON);
        Host { switches, ..self }
    }

    // All parameters of a Characteristics message, in order.
    pub fn with_settings(self, list: &[u8]) -> Host
        ensures { (host_view result ≡ with_parameters (parameters_from characteristics 0 list.now) (host_view self)) ×
            KeepsSettings self result }
    {
        let mut host = self;
        for p in Parameters::new(rules::CHARACTERISTICS, list) {
            host = host.with_setting(p);
        }
        host
    }

    // All are of the five, and no character is left deferred-clear.
    pub fn carries_settings(self, list: &[u8]) -> bool
        ensures { result ≡ carries_settings (host_view self) (settings_in list.now) }
    {
        if !all_carried(rules::CHARACTERISTICS, list) {
            return false;
        }
        let host = self.with_settings(list);
        !any_deferred_clear(&host.attributes)
    }
}

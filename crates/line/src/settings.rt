// What an accepted host message sets of the line, and the report of what is set.
ghost use Rattle.std.specs.Prelude.{◌≡◌};
ghost use Rattle.fields.specs.Spans.{span_of};
ghost use Rattle.line.specs.Bounded.{Counted};
ghost use Rattle.line.specs.Host.{StartableMessage, on_initiated, on_host, Sets, SetBy, Reported, host_in};

use crate::Line;
use crate::events::HostMessage;
use areas::Writer;
use characteristics::Host;
use fields::Span;

impl Line {
    // What is set, as the characteristics look at it.
    pub(crate) fn host_in(self) -> Host
        ensures { result ≡ host_in self }
    {
        let attributes = self.attributes;
        Host {
            initiated: self.initiated,
            switches: self.switches,
            attributes,
            last_set: self.last_set,
            largest_read: self.largest_read,
        }
    }

    fn with_host(self, h: Host) -> Line
        ensures { result ≡ on_host h self }
    {
        let attributes = h.attributes;
        Line {
            attributes,
            last_set: h.last_set,
            largest_read: h.largest_read,
            initiated: h.initiated,
            switches: h.switches,
            ..self
        }
    }

    // From now on messages other than Initiate are taken.
    fn initiated(self) -> Line
        ensures { result ≡ on_initiated self }
    {
        Line {
            initiated: true,
            ..self
        }
    }

    // Characteristics: switches and attributes, as the parameters set them.
    fn with_characteristics(self, parameters: Span, s: &[u8]) -> Line
        requires { Counted self }
        ensures { Sets (span_of s.now parameters) self result }
    {
        let host = self.host_in();
        let list = fields::span_of(s, parameters);
        let set = host.with_settings(list);
        self.with_host(set)
    }

    // By the message's type.
    pub(crate) fn set_by(self, m: HostMessage, s: &[u8]) -> Line
        requires counted { Counted self }
        requires startable_message { StartableMessage s.now m }
        ensures { SetBy s.now m self result }
    {
        match m {
            HostMessage::Initiate(_) => self.initiated(),
            HostMessage::StartRead(f) => self.opens(f, s),
            HostMessage::Characteristics(parameters) => self.with_characteristics(parameters, s),
            _ => self,
        }
    }

    // Read Characteristics: the report goes to the front of the message area; up to which place.
    pub(crate) fn reports(self, m: HostMessage, s: &[u8], messages: &mut [u8]) -> usize
        ensures { Reported s.now m self messages.old result messages.new }
    {
        match m {
            HostMessage::ReadCharacteristics(parameters) => {
                let host = self.host_in();
                let list = fields::span_of(s, parameters);
                let mut w = Writer {
                    area: messages,
                    at: 0,
                };
                host.put_report(list, &mut w);
                w.at
            }
            _ => 0,
        }
    }
}

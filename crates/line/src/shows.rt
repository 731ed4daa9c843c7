// What only writes to the terminal. One method over a closure would have to say in its contract what the closure does to screen and
// writer, and the six would stay, each with its rule.
ghost use Rattle.std.specs.Prelude.{ℕ, List, [], ◌∷◌, ◌≡◌};
ghost use Rattle.rules.specs.Screen as rules;
ghost use Rattle.rules.specs.Turns.{writes};
ghost use Rattle.line.specs.With.{writer_of, AfterShown};
ghost use Rattle.line.specs.declared.Line.{Line};
ghost use Rattle.line.specs.Promise.{on, Does};

use crate::Work;
use areas::Writer;
use screen::Screen;

impl Work {
    // A writer into the terminal's area from here on.
    fn writer<'a>(self, terminal: &'a mut [u8]) -> Writer<'a>
        ensures { result ≡ writer_of terminal.entry self }
    {
        Writer {
            area: terminal,
            at: self.at,
        }
    }

    // Behind what was shown, with the screen as it then is.
    fn showing(self, at: usize, screen: Screen) -> Work
        ensures { AfterShown at screen self result }
    {
        let mut flow = self.flow;
        flow.terminal.screen = screen;
        Work {
            flow,
            at,
            sent: self.sent,
        }
    }

    // The bytes of a text, raw.
    pub(crate) fn write(self, terminal: &mut [u8], text: &[u8]) -> Work
        ensures rule { (l : Line) (m : List ℕ) → Does (writes text.now) (on l self) terminal.old m (on l result) terminal.new m }
    {
        let mut writer = self.writer(terminal);
        let mut screen = self.flow.terminal.screen;
        screen.write(text, &mut writer);
        self.showing(writer.at, screen)
    }

    // One byte.
    pub(crate) fn put(self, terminal: &mut [u8], b: u8) -> Work
        ensures rule { (l : Line) (m : List ℕ) → Does (writes (b ∷ [])) (on l self) terminal.old m (on l result) terminal.new m }
    {
        let mut writer = self.writer(terminal);
        let mut screen = self.flow.terminal.screen;
        screen.put(b, &mut writer);
        self.showing(writer.at, screen)
    }

    // A character's echo.
    pub(crate) fn echo(self, terminal: &mut [u8], n: u8) -> Work
        ensures rule { (l : Line) (m : List ℕ) →
            Does (writes (rules.echo self.flow.terminal.screen.column n)) (on l self) terminal.old m (on l result) terminal.new m }
    {
        let mut writer = self.writer(terminal);
        let mut screen = self.flow.terminal.screen;
        screen.echo(n, &mut writer);
        self.showing(writer.at, screen)
    }

    // A terminator's echo.
    pub(crate) fn echo_terminator(self, terminal: &mut [u8], n: u8) -> Work
        ensures rule { (l : Line) (m : List ℕ) →
            Does (writes (rules.echo_terminator self.flow.terminal.screen.column n)) (on l self) terminal.old m (on l result)
            terminal.new m }
    {
        let mut writer = self.writer(terminal);
        let mut screen = self.flow.terminal.screen;
        screen.echo_terminator(n, &mut writer);
        self.showing(writer.at, screen)
    }

    // A text's echo.
    pub(crate) fn echo_all(self, terminal: &mut [u8], text: &[u8]) -> Work
        ensures rule { (l : Line) (m : List ℕ) →
            Does (writes (rules.echo_all self.flow.terminal.screen.column text.now)) (on l self) terminal.old m (on l result)
            terminal.new m }
    {
        let mut writer = self.writer(terminal);
        let mut screen = self.flow.terminal.screen;
        screen.echo_all(text, &mut writer);
        self.showing(writer.at, screen)
    }

    // Blanks over so many marks.
    pub(crate) fn rub_out(self, terminal: &mut [u8], marks: usize) -> Work
        ensures rule { (l : Line) (m : List ℕ) →
            Does (writes (rules.rub_out marks)) (on l self) terminal.old m (on l result) terminal.new m }
    {
        let mut writer = self.writer(terminal);
        let mut screen = self.flow.terminal.screen;
        screen.rub_out(marks, &mut writer);
        self.showing(writer.at, screen)
    }
}

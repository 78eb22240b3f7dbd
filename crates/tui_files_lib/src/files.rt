//! The app.

ghost use Rattle.std.specs.Option.{option_copied};
ghost use Rattle.std.specs.Path.{path_file_name, path_parent};
ghost use Rattle.std.specs.Prelude.{◌≡◌, None, IfOk, IfSome, MatchOption, OnOk, false, not, string_bytes, true};
ghost use Rattle.tui_files_lib.specs.BrowserAction.{flow_if_ignored};
ghost use Rattle.tui_files_lib.specs.Browsing.{
  Begins,
  Performs,
  GoesOut,
  Handles,
  Narrows,
  Opens,
  Takes,
  chosen_path,
  flow_of,
  moved,
  selected_place,
  takes_event,
  without_filter,
};

use crate::actions::{BrowserAction, ListMotion, flow_after, flow_if_ignored};
use crate::browser::Browser;
use crate::folders::{EntryKind, Folders};
use crate::naming::{head_text, path_of, without_controls};
use std::alloc::Global;
use std::path::Path;
use tui_app::{App, Flow};
use tui_cells::{Buffer, Mem, Position};
use tui_keys::Event;

/// A browser of folders, driven by events.
#[derive(Drop)]
pub struct FilesApp<F> {
    folders: F,
    browser: Browser,
}

impl<F: Folders + Drop> FilesApp<F> {
    /// Returns a browser of the folder at an absolute path; None if the folder can't be read.
    pub fn new(alloc: Global, folders: F, folder: &str) -> Mem<Option<FilesApp<F>>>
        ensures begins { IfOk result (λ opened. MatchOption opened (F.lists folders folder.now None)
            (λ app. Begins (F.lists folders) folder.now app.browser)) }
        ensures folders { IfOk result (λ opened. IfSome opened (λ app. app.folders ≡ folders)) }
    {
        match folders.list(alloc, folder)? {
            None => Ok(None),
            Some(listing) => {
                let browser = Browser::new(alloc, String::from_str(alloc, folder)?, listing)?;
                let mut app = FilesApp { folders, browser };
                app.read_head(alloc)?;
                Ok(Some(app))
            }
        }
    }

    /// Returns the selected path; the path of the folder if no name is selected.
    pub fn chosen(&self, alloc: Global) -> Mem<String>
        ensures { IfOk result (λ path. string_bytes path ≡ chosen_path self.now.browser) }
    {
        match self.browser.selected() {
            Some(name) => path_of(alloc, self.browser.folder.as_str(), name.text.as_str()),
            None => Ok(String::from_str(alloc, self.browser.folder.as_str())?),
        }
    }

    /// Reads the beginning of the selected file.
    fn read_head(&mut self, alloc: Global) -> Mem<()>
        ensures { OnOk result (self.new ≡ record self.old { browser = record self.old.browser { head = self.new.browser.head } }) }
    {
        let head = self.head(alloc)?;
        self.browser.head = head;
        Ok(())
    }

    /// Returns the beginning of the selected file, as displayed. It is empty for a folder.
    fn head(&self, alloc: Global) -> Mem<String> {
        match self.browser.kind() {
            Some(EntryKind::File) => {}
            _ => return Ok(String::new(alloc)),
        }
        let path = self.chosen(alloc)?;
        match self.folders.head(alloc, path.as_str())? {
            Some(bytes) => head_text(alloc, &bytes),
            None => Ok(String::from_str(alloc, "cannot be read")?),
        }
    }

    /// Shows a folder with this name selected. If it can't be read, sets a message that says so.
    fn open(&mut self, alloc: Global, folder: String, name: Option<&str>) -> Mem<()>
        ensures opens { OnOk result (Opens (F.lists self.old.folders) (string_bytes folder) (option_copied name.entry) self.old.browser self.new.browser) }
        ensures folders { OnOk result (self.new.folders ≡ self.old.folders) }
    {
        match self.folders.list(alloc, folder.as_str())? {
            Some(listing) => {
                self.browser.show(alloc, folder, listing, name)?;
                self.read_head(alloc)?;
                Ok(())
            }
            None => {
                self.browser.notice = without_controls(alloc, folder.as_str())?;
                self.browser.notice.push_str(" cannot be read")?;
                Ok(())
            }
        }
    }

    /// Goes into the selected folder.
    fn go_in(&mut self, alloc: Global) -> Mem<()>
        ensures opens { OnOk result (Opens (F.lists self.old.folders) (chosen_path self.old.browser) None self.old.browser self.new.browser) }
        ensures folders { OnOk result (self.new.folders ≡ self.old.folders) }
    {
        let folder = self.chosen(alloc)?;
        self.open(alloc, folder, None)
    }

    /// Goes to the parent folder, and selects the folder that was left.
    fn go_out(&mut self, alloc: Global) -> Mem<()>
        ensures goes { let folder = string_bytes self.old.browser.folder in
            OnOk result (GoesOut (F.lists self.old.folders) (path_parent folder) (path_file_name folder) self.old.browser self.new.browser) }
        ensures folders { OnOk result (self.new.folders ≡ self.old.folders) }
    {
        let left = String::from_str(alloc, self.browser.folder.as_str())?;
        let path = Path::new(left.as_str());
        match (path.parent(), path.file_name()) {
            (Some(parent), Some(name)) => {
                let folder = String::from_str(alloc, parent.as_str())?;
                self.open(alloc, folder, Some(name))
            }
            _ => Ok(()),
        }
    }

    /// Lists the names that pass the filter now. The selected one stays selected if it is among them.
    fn narrow(&mut self, alloc: Global) -> Mem<()>
        ensures narrows { OnOk result (Narrows (selected_place self.old.browser) self.old.browser self.new.browser) }
        ensures folders { OnOk result (self.new.folders ≡ self.old.folders) }
    {
        let place = self.browser.place();
        self.browser.narrow(alloc, place)?;
        self.read_head(alloc)
    }

    /// Shows the names that begin with a dot, or hides them again.
    fn toggle_hidden(&mut self, alloc: Global) -> Mem<()>
        ensures narrows { OnOk result
            (Narrows (selected_place self.old.browser) (record self.old.browser { hidden = not self.old.browser.hidden }) self.new.browser) }
        ensures folders { OnOk result (self.new.folders ≡ self.old.folders) }
    {
        self.browser.hidden = !self.browser.hidden;
        self.narrow(alloc)
    }

    /// Clears the filter.
    fn drop_filter(&mut self, alloc: Global) -> Mem<()>
        ensures narrows { OnOk result (Narrows (selected_place self.old.browser) (without_filter self.old.browser) self.new.browser) }
        ensures folders { OnOk result (self.new.folders ≡ self.old.folders) }
    {
        self.browser.drop_filter(alloc);
        self.narrow(alloc)
    }

    /// Moves the selection.
    fn move_by(&mut self, alloc: Global, motion: ListMotion) -> Mem<()>
        ensures moves { OnOk result (self.new.browser ≡ record self.old.browser { state = moved motion self.old.browser; head = self.new.browser.head }) }
        ensures folders { OnOk result (self.new.folders ≡ self.old.folders) }
    {
        let row = self.browser.row_after(motion);
        self.browser.select(row);
        self.read_head(alloc)
    }

    /// Gives an event to the filter if it is being typed. Returns whether the filter has used the event.
    fn take(&mut self, alloc: Global, event: Event) -> Mem<bool>
        ensures used { IfOk result (λ used. used ≡ takes_event self.old.browser event) }
        ensures takes { OnOk result (takes_event self.old.browser event ≡ true → Takes event self.old.browser self.new.browser) }
        ensures stays { OnOk result (takes_event self.old.browser event ≡ false → self.new.browser ≡ self.old.browser) }
        ensures folders { OnOk result (self.new.folders ≡ self.old.folders) }
    {
        if !self.browser.is_typing {
            return Ok(false);
        }
        let before = self.browser.filter_text.text().len();
        if !self.browser.filter_text.take(event)? {
            return Ok(false);
        }
        // An event that changes the text also changes its length.
        if self.browser.filter_text.text().len() == before {
            return Ok(true);
        }
        self.narrow(alloc)?;
        Ok(true)
    }

    /// Performs an action.
    fn perform(&mut self, alloc: Global, action: BrowserAction) -> Mem<()>
        ensures performs { OnOk result (Performs (F.lists self.old.folders) action self.old.browser self.new.browser) }
        ensures folders { OnOk result (self.new.folders ≡ self.old.folders) }
    {
        match action {
            BrowserAction::GoIn => self.go_in(alloc),
            BrowserAction::GoOut => self.go_out(alloc),
            BrowserAction::ToggleHidden => self.toggle_hidden(alloc),
            BrowserAction::BeginFilter => {
                self.browser.is_typing = true;
                Ok(())
            }
            BrowserAction::KeepFilter => {
                self.browser.is_typing = false;
                Ok(())
            }
            BrowserAction::DropFilter => self.drop_filter(alloc),
            BrowserAction::Move(motion) => self.move_by(alloc, motion),
            BrowserAction::Nothing | BrowserAction::Quit | BrowserAction::Choose => Ok(()),
        }
    }

    /// Handles an event that concerns the browser. Clears the message about a folder that could not be read.
    fn handle(&mut self, alloc: Global, event: Event) -> Mem<Flow>
        requires { flow_if_ignored event ≡ None }
        ensures flow { IfOk result (λ flow. flow ≡ flow_of self.old.browser event) }
        ensures handles { OnOk result (Handles (F.lists self.old.folders) self.old.browser event self.new.browser) }
        ensures folders { OnOk result (self.new.folders ≡ self.old.folders) }
    {
        self.browser.notice.clear();
        if self.take(alloc, event)? {
            return Ok(Flow::Go);
        }
        let action = self.browser.action_for(event);
        self.perform(alloc, action)?;
        Ok(flow_after(action))
    }
}

impl<F: Folders + Drop> App for FilesApp<F> {
    ghost use Rattle.tui_files_lib.specs.Laws.{files};

    ghost behaviour = { files F F.lists };

    fn step(&mut self, alloc: Global, event: Event) -> Mem<Flow> {
        match flow_if_ignored(event) {
            Some(flow) => Ok(flow),
            None => self.handle(alloc, event),
        }
    }

    fn draw(&mut self, alloc: Global, buf: &mut Buffer) -> Mem<Option<Position>> {
        self.browser.draw(alloc, buf)
    }
}

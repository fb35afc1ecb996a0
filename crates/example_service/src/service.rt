//! A service that keeps documents of its tenants, within a limit for each, and says what it holds.
use crate::documents::{Document, Held, Note, Order};
use crate::request::{Draft, Request};
use allocative::{IdRc, Identity, Refusal};
use allocative_picture::options::Options;
use allocative_picture::picture::{change_picture, picture};
use allocative_service::cache::{BoundedCache, CacheError};
use allocative_service::history::{History, report};
use allocative_service::ledger::{Budget, Ledger, Rejection, Standing};
use allocative_service::measure::Measure;
use anyhow::Result;
use std::alloc::{AllocError, Global};

/// The account of what all tenants share. No request can name it, since it has a space.
const SHARED: &str = "the catalogue";

/// The documents, the pages that were last shown of them, an account for each tenant, and the last profiles.
#[derive(Drop)]
pub struct Service {
    alloc: Global,
    held: Held,
    pages: BoundedCache<String, String>,
    ledger: Ledger,
    history: History,
}

impl Service {
    /// A service with a catalogue of these items and no document. It keeps pages of 230 bytes together. The catalogue
    /// has an account of its own, with a limit of 1000 bytes, so it is billed once, and to no tenant: `Measure::Owned`
    /// leaves out what an order's pointer to it points to.
    pub fn new(alloc: Global, items: &[&str]) -> Result<Service> {
        let held = hold(alloc, items)?;
        let mut ledger = Ledger::new(alloc, Measure::Owned);
        ledger.open(SHARED, Budget { limit: 1000 })?;
        ledger.admit(SHARED, 1, held.catalogue.get())?;
        Ok(Service {
            alloc,
            held,
            pages: BoundedCache::new(alloc, Measure::Shown, 230).map_err(Refusal::from)?,
            ledger,
            history: History::new(alloc, 2),
        })
    }

    /// Does what is asked for, and returns the text that says what comes of it. The error is `Memory`, or that of a
    /// profile, a comparison or a picture.
    pub fn answer(&mut self, request: &Request<'_>) -> Result<String, Refusal> {
        let alloc = self.alloc;
        let ledger = &mut self.ledger;
        match *request {
            Request::Open(tenant, limit) => tell(alloc, ledger.open(tenant, budget_of(limit))),
            Request::Limit(tenant, limit) => {
                tell(alloc, ledger.set_budget(tenant, budget_of(limit)))
            }
            Request::Soft(tenant, bytes) => self.set_soft_limit(tenant, bytes),
            Request::Whole(limit) => tell(alloc, ledger.set_limit(limit)),
            Request::Attach(tenant, key, bytes) => {
                tell_entered(alloc, tenant, ledger.record(tenant, key, bytes))
            }
            Request::Charge(tenant, key, more) => {
                tell_entered(alloc, tenant, ledger.charge(tenant, key, more))
            }
            Request::Credit(tenant, key, less) => {
                tell_entered(alloc, tenant, ledger.credit(tenant, key, less))
            }
            Request::Reset(tenant) => tell_peak(alloc, tenant, ledger.reset_peak(tenant)),
            Request::Close(tenant) => self.close(tenant),
            Request::Put(tenant, key, draft) => self.put(tenant, key, draft),
            Request::Get(tenant, key) => self.get(tenant, key),
            Request::Drop(tenant, key) => self.remove(tenant, key),
            Request::Append(tenant, key, text) => self.append(tenant, key, text),
            Request::Shed(tenant) => self.shed(tenant),
            Request::Bound(bytes) => self.set_bound(bytes),
            Request::Clear => Ok(self.clear()),
            Request::Pages => self.list_pages(),
            Request::Bill => self.bill(),
            Request::Metrics => Ok(ledger.metrics("ledger")?),
            Request::Profile => self.profile(),
            Request::Report => self.report(),
            Request::Most(count) => self.tell_most(count),
            Request::Picture => self.draw(),
            Request::Change => self.draw_change(),
        }
    }

    /// Changes the soft limit of a tenant.
    fn set_soft_limit(&mut self, tenant: &str, bytes: usize) -> Result<String, Refusal> {
        let set = self.ledger.set_soft_limit(tenant, bytes);
        tell(self.alloc, set.ok_or(Rejection::NoAccount))
    }

    /// Makes a document of the draft, enters it into the ledger, and keeps it in place of the one that the key has.
    fn put(&mut self, tenant: &str, key: u64, draft: Draft<'_>) -> Result<String, Refusal> {
        match draft {
            Draft::Note(text) => {
                let note = Note::new(self.alloc, tenant, key, text)?;
                self.put_document(tenant, key, note)
            }
            Draft::Order(places) => {
                let order = Order::new(self.alloc, tenant, key, &self.held.catalogue, places)?;
                self.put_document(tenant, key, order)
            }
        }
    }

    /// Enters a document into the ledger, and keeps it in place of the one that the key has.
    fn put_document<D: Document>(
        &mut self,
        tenant: &str,
        key: u64,
        document: D,
    ) -> Result<String, Refusal> {
        let entered = match self.ledger.admit(tenant, key, &document) {
            Err(Rejection::Taken { number }) => self
                .ledger
                .measure_again(tenant, number, &document),
            entered => entered,
        };
        let mut text = tell_entered(self.alloc, tenant, entered)?;
        if entered.is_ok() {
            self.forget(tenant, key);
            document.keep(&mut self.held)?;
            text.push_str(self.renew_page(tenant, key)?.as_str())?;
        }
        Ok(text)
    }

    /// Drops the document of a key.
    fn forget(&mut self, tenant: &str, key: u64) {
        self.held.notes.retain(|note| !(note.key == key && note.tenant.as_str() == tenant));
        self.held.orders.retain(|order| !(order.key == key && order.tenant.as_str() == tenant));
    }

    /// Drops the document of a key and its page.
    fn forget_with_page(&mut self, tenant: &str, key: u64) -> Result<(), Refusal> {
        self.forget(tenant, key);
        let place = self.place_of(tenant, key)?;
        self.pages.remove(&place);
        Ok(())
    }

    /// Drops the document of a key, and gives its bytes back.
    fn remove(&mut self, tenant: &str, key: u64) -> Result<String, Refusal> {
        let text = match self.ledger.release(tenant, key) {
            Some(bytes) => format!(in self.alloc; "{tenant} gives {bytes} bytes back\n")?,
            None => format!(in self.alloc; "{tenant} has no document {key}\n")?,
        };
        self.forget_with_page(tenant, key)?;
        Ok(text)
    }

    /// Appends a text to a note, and enters what the note has grown by.
    fn append(&mut self, tenant: &str, key: u64, added: &str) -> Result<String, Refusal> {
        for note in &mut self.held.notes {
            if note.key == key && note.tenant.as_str() == tenant {
                write!(note.text, " {added}")?;
                let entered = self.ledger.enter_growth(tenant, key, note);
                let mut text = tell_standing(self.alloc, tenant, entered)?;
                text.push_str(self.renew_page(tenant, key)?.as_str())?;
                return Ok(text);
            }
        }
        Ok(format!(in self.alloc; "{tenant} has no note {key}\n")?)
    }

    /// Drops the largest documents of a tenant, until the others are within its limit.
    fn shed(&mut self, tenant: &str) -> Result<String, Refusal> {
        let Some(account) = self.ledger.accounts().get(tenant) else {
            return tell(self.alloc, Err(Rejection::NoAccount));
        };
        let mut text = String::new(self.alloc);
        for _ in 0..account.entries().len() {
            if self.ledger.excess_of(tenant) == Some(0) {
                break;
            }
            let largest = self.ledger.largest_of(tenant).map(|entry| *entry.0);
            if let Some(key) = largest {
                text.push_str(self.remove(tenant, key)?.as_str())?;
            }
        }
        Ok(text)
    }

    /// Closes the account of a tenant, and drops its documents.
    fn close(&mut self, tenant: &str) -> Result<String, Refusal> {
        let Some(account) = self.ledger.close(tenant) else {
            return tell(self.alloc, Err(Rejection::NoAccount));
        };
        let text = format!(in self.alloc; "{tenant} had {} bytes\n", account.bytes())?;
        for (key, _bytes) in account.entries() {
            self.forget_with_page(tenant, *key)?;
        }
        Ok(text)
    }

    /// Shows a document by its page, which is kept for the next time.
    fn get(&mut self, tenant: &str, key: u64) -> Result<String, Refusal> {
        let place = self.place_of(tenant, key)?;
        if let Some(page) = self.pages.get(&place) {
            return Ok(format!(in self.alloc; "{page} (kept)\n")?);
        }
        let Some(page) = self.page_of(tenant, key)? else {
            return Ok(format!(in self.alloc; "{tenant} has no document {key}\n")?);
        };
        let mut text = format!(in self.alloc; "{page}\n")?;
        text.push_str(self.keep_page(place, page)?.as_str())?;
        Ok(text)
    }

    /// The place of the page of a document.
    fn place_of(&self, tenant: &str, key: u64) -> Result<String, AllocError> {
        format!(in self.alloc; "{tenant}/{key}")
    }

    /// The page of a document.
    fn page_of(&self, tenant: &str, key: u64) -> Result<Option<String>, AllocError> {
        for note in &self.held.notes {
            if note.key == key && note.tenant.as_str() == tenant {
                return Ok(Some(note.page(self.alloc)?));
            }
        }
        for order in &self.held.orders {
            if order.key == key && order.tenant.as_str() == tenant {
                return Ok(Some(order.page(self.alloc)?));
            }
        }
        Ok(None)
    }

    /// Keeps a page, and says which pages go for it, or why it is not kept.
    fn keep_page(&mut self, place: String, page: String) -> Result<String, Refusal> {
        let mut text = String::new(self.alloc);
        let mut written = Ok(());
        let kept = self.pages.insert(place, page, |place: String, _page| {
            if written.is_ok() {
                written = write!(text, "page {place} goes\n");
            }
        });
        written?;
        match kept {
            Ok(_had) => Ok(text),
            Err(refused) => tell_page(self.alloc, refused.error),
        }
    }

    /// Replaces the page of a document that has changed, if it is kept. It says which pages go for the new one.
    fn renew_page(&mut self, tenant: &str, key: u64) -> Result<String, Refusal> {
        let place = self.place_of(tenant, key)?;
        if self.pages.remove(&place).is_some()
            && let Some(page) = self.page_of(tenant, key)?
        {
            return self.keep_page(place, page);
        }
        Ok(String::new(self.alloc))
    }

    /// Changes how many bytes of pages are kept, and says which pages go.
    fn set_bound(&mut self, bytes: usize) -> Result<String, Refusal> {
        let mut text = String::new(self.alloc);
        let mut written = Ok(());
        self.pages.set_bound(bytes, |place: String, _page| {
            if written.is_ok() {
                written = write!(text, "page {place} goes\n");
            }
        });
        written?;
        Ok(text)
    }

    /// Drops all pages. Nothing is said.
    fn clear(&mut self) -> String {
        self.pages.clear();
        String::new(self.alloc)
    }

    /// The pages that are kept, the most recently used first, and their bytes.
    fn list_pages(&self) -> Result<String, Refusal> {
        let mut text = String::new(self.alloc);
        for (place, page) in self.pages.iter() {
            write!(text, "page {place}: {} bytes\n", page.bytes)?;
        }
        let (count, bytes, bound) = (self.pages.len(), self.pages.bytes(), self.pages.bound());
        write!(text, "pages: {count}, {bytes} of {bound} bytes\n")?;
        Ok(text)
    }

    /// What is billed to each tenant, and all of it together. Of a tenant: its bytes, its limit, the most bytes that it
    /// had, whether it is over its soft limit, and the bytes of each document.
    fn bill(&self) -> Result<String, Refusal> {
        let mut text = String::new(self.alloc);
        for (tenant, account) in self.ledger.accounts() {
            let (bytes, limit, peak) = (account.bytes(), account.limit(), account.peak());
            let mark = if account.is_over() { ", over" } else { "" };
            write!(
                text,
                "{tenant}: {bytes} of {limit} bytes, at most {peak}{mark}\n"
            )?;
            for (key, bytes) in account.entries() {
                write!(text, "  document {key}: {bytes} bytes\n")?;
            }
        }
        write!(text, "all: {} bytes\n", self.ledger.bytes())?;
        Ok(text)
    }

    /// Takes a profile of all that the service holds.
    fn profile(&mut self) -> Result<String, Refusal> {
        self.history.take_profile(self.alloc, &self.held)?;
        Ok(format!(in self.alloc; "profiles: {}\n", self.history.len())?)
    }

    /// What changed since the last profile but one.
    fn report(&self) -> Result<String, Refusal> {
        match self.history.between(self.alloc, 1, 0)? {
            Some(changes) => Ok(report(self.alloc, changes.as_slice())?),
            None => too_few(self.alloc),
        }
    }

    /// By how much the paths grew that grew most between the last two profiles.
    fn tell_most(&self, count: usize) -> Result<String, Refusal> {
        let Some(top) = self.history.grew_most(self.alloc, count)? else {
            return too_few(self.alloc);
        };
        let mut text = String::new(self.alloc);
        for change in &top {
            write!(text, "{} bytes more\n", change.growth())?;
        }
        Ok(text)
    }

    /// The picture of the last profile, a text that a browser shows.
    fn draw(&self) -> Result<String, Refusal> {
        let Some(last) = self.history.latest() else {
            return Ok(String::from_str(self.alloc, "there is no profile\n")?);
        };
        let options = Options {
            title: "What the service holds",
            ..Options::default()
        };
        picture(self.alloc, last, &options)
    }

    /// The picture of what changed since the last profile but one.
    fn draw_change(&self) -> Result<String, Refusal> {
        let Some((earlier, last)) = self.history.pair(1, 0) else {
            return too_few(self.alloc);
        };
        let options = Options {
            title: "What has changed",
            ..Options::default()
        };
        change_picture(self.alloc, earlier, last, &options)
    }
}

/// What a service holds that has a catalogue of these items and no document.
fn hold(alloc: Global, items: &[&str]) -> Result<Held, Refusal> {
    let mut catalogue = Vec::with_capacity(alloc, items.len())?;
    for item in items {
        catalogue.push(String::from_str(alloc, item)?)?;
    }
    Ok(Held {
        catalogue: IdRc::new(alloc, catalogue, Identity::from(1))?,
        notes: Vec::new(alloc),
        orders: Vec::new(alloc),
    })
}

/// A budget of so many bytes.
fn budget_of(limit: usize) -> Budget {
    Budget { limit }
}

/// Says why something is not admitted, and nothing if it is. If memory runs out, that is the error.
fn tell(alloc: Global, done: Result<(), Rejection>) -> Result<String, Refusal> {
    match done {
        Ok(()) => Ok(String::new(alloc)),
        Err(Rejection::NotKept | Rejection::NotMeasured(Refusal::Memory)) => Err(Refusal::Memory),
        Err(rejection) => Ok(format!(in alloc; "{rejection}\n")?),
    }
}

/// Says how many bytes a tenant has, or why something is not admitted.
fn tell_entered(
    alloc: Global,
    tenant: &str,
    entered: Result<usize, Rejection>,
) -> Result<String, Refusal> {
    match entered {
        Ok(bytes) => Ok(format!(in alloc; "{tenant} has {bytes} bytes\n")?),
        Err(rejection) => tell(alloc, Err(rejection)),
    }
}

/// Says how many bytes a tenant has after growth and how many are beyond its limit, or why the growth is not entered.
fn tell_standing(
    alloc: Global,
    tenant: &str,
    entered: Result<Standing, Rejection>,
) -> Result<String, Refusal> {
    match entered {
        Ok(Standing { bytes, excess, .. }) => {
            Ok(format!(in alloc; "{tenant} has {bytes} bytes, {excess} too many\n")?)
        }
        Err(rejection) => tell(alloc, Err(rejection)),
    }
}

/// Says how many bytes a tenant had at most, or that it has no account.
fn tell_peak(alloc: Global, tenant: &str, peak: Option<usize>) -> Result<String, Refusal> {
    match peak {
        Some(peak) => Ok(format!(in alloc; "{tenant} had at most {peak} bytes\n")?),
        None => tell(alloc, Err(Rejection::NoAccount)),
    }
}

/// Says why a page is not kept. If memory runs out, that is the error.
fn tell_page(alloc: Global, error: CacheError) -> Result<String, Refusal> {
    match error {
        CacheError::Memory | CacheError::NotMeasured(Refusal::Memory) => Err(Refusal::Memory),
        _ => Ok(format!(in alloc; "{error}\n")?),
    }
}

/// Says that there are fewer than two profiles.
fn too_few(alloc: Global) -> Result<String, Refusal> {
    Ok(String::from_str(alloc, "there are fewer than two profiles\n")?)
}

//! The sources of a session are opened and started.

ghost use Rattle.std.specs.Prelude.{◌≡◌, ℕ, All, length, Err, IfOk, OnOk, bytes_eq};
ghost use Rattle.entry_model.specs.Fits.{IsDistinct};
ghost use Rattle.source_feeds.specs.Feeding.{IsOpen};
ghost use Rattle.daemon_rounds.specs.Rounding.{AreGoing, FailsAt};
ghost use Rattle.daemon_rounds.specs.Starting.{AreFeedsOf, HasShrunk, IsFeedOf, IsStarted, ShrankAt, Starts, source_names};
ghost use Rattle.daemon_rounds.specs.declared.error.StartError.{StartError};

use crate::error::StartError;
use entry_model::restored::Taken;
use osq_outside::Source;
use osq_value::{CategoryList, Copied, NoMemory, SourceName};
use publisher_core::error::StepError;
use session_state::offset_of;
use source_feeds::Feed;
use std::alloc::Global;

/// A feed of the source.
fn open_feed(
    alloc: Global,
    source: &SourceName,
    taken: &[Taken],
    paths: &CategoryList,
) -> Result<Feed, NoMemory>
    ensures { IfOk result (IsFeedOf taken.now paths.now source.now) }
{
    let kept = offset_of(taken, &source.name);
    let name = source.name.copy(alloc)?;
    let paths = paths.copy(alloc)?;
    match Feed::open(alloc, name, source.kind, kept, paths) {
        Ok(feed) => Ok(feed),
        Err(NoMemory) => Err(NoMemory),
    }
}

/// A feed for each source, which goes on from the offset up to which earlier sessions took it. Nothing is read yet.
pub fn open_feeds(
    alloc: Global,
    sources: &[SourceName],
    taken: &[Taken],
    paths: &CategoryList,
) -> Result<Vec<Feed>, NoMemory>
    ensures { IfOk result (λ feeds. AreFeedsOf taken.now paths.now sources.now feeds.items) }
{
    let mut feeds = Vec::new(alloc);
    for source in sources {
        feeds.push(open_feed(alloc, source, taken, paths)?)?;
    }
    Ok(feeds)
}

/// Starts each source, in order: drops the bytes that earlier sessions took of it.
/// SourceFault with the place of a source that failed; SourceShrank with that of one that ended before these bytes.
pub fn start_feeds<S: Source>(feeds: &mut [Feed], sources: &mut [S]) -> Result<(), StartError>
    requires paired { length sources.old ≡ length feeds.old }
    requires fresh { All IsOpen feeds.old }
    ensures started { OnOk result (Starts S.tells S.left S.faults feeds.old feeds.new sources.old sources.new) }
    ensures fault { (place : ℕ) → result ≡ Err (StartError.SourceFault place) → FailsAt S.faults place sources.old sources.new }
    ensures shrank { (place kept found : ℕ) → result ≡ Err (StartError.SourceShrank place kept found) → ShrankAt S.tells S.left place kept found feeds.old sources.old }
{
    for at in 0..feeds.len() {
        let feed = &mut feeds[at];
        let source = &mut sources[at];
        match feed.start(source) {
            Ok(()) => {}
            Err(StepError::SourceFault) => return Err(StartError::SourceFault { place: at }),
            Err(StepError::SourceShrank { kept, found }) => {
                return Err(StartError::SourceShrank {
                    place: at,
                    kept,
                    found,
                });
            }
            Err(StepError::NoMemory) => return Err(StartError::NoMemory),
        }
    }
    Ok(())
}

/// A feed for each of these sources, which goes on from the offset up to which earlier sessions took it, and is started. No two of them have
/// one name.
/// It refuses as `start_feeds` does.
pub fn start_sources<S: Source>(
    alloc: Global,
    names: &[SourceName],
    taken: &[Taken],
    paths: &CategoryList,
    sources: &mut [S],
) -> Result<Vec<Feed>, StartError>
    requires paired { length sources.old ≡ length names.now }
    requires distinct { IsDistinct bytes_eq (source_names names.now) }
    ensures started { IfOk result (λ feeds. IsStarted S.tells S.left S.faults taken.now paths.now names.now feeds.items sources.old sources.new) }
    ensures going { IfOk result (λ feeds. AreGoing taken.now feeds.items) }
    ensures paired { IfOk result (λ feeds. length sources.new ≡ length feeds.items) }
    ensures fault { (place : ℕ) → result ≡ Err (StartError.SourceFault place) → FailsAt S.faults place sources.old sources.new }
    ensures shrank { (place kept found : ℕ) → result ≡ Err (StartError.SourceShrank place kept found) → HasShrunk S.tells S.left taken.now names.now place kept found sources.old }
{
    let Ok(mut feeds) = open_feeds(alloc, names, taken, paths) else {
        return Err(StartError::NoMemory);
    };
    match start_feeds(feeds.as_mut_slice(), sources) {
        Ok(()) => Ok(feeds),
        Err(error) => Err(error),
    }
}

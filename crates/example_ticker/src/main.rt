//! A ticker: prices are sent over a broadcast, and a watch has the last one. One receiver is slow and lags, and the debugger
//! goes back to the call that made it lag.
//! Start reading at `main`.
//! What stands on it: nothing.
#![tactic(auto)]

ghost use Rattle.std.specs.Prelude.{◌≡◌};

use anyhow::{Result, bail};
use rw_broadcast::{BCall, BReply, TryRecvError};
use rw_journal::Book;
use rw_navigator::{Cond, Debugger};
use rw_watch::{WCall, WReply};
use rw_world::{Chan, ChanCall, ChanReply, RowCall, Spec, World, open};

type Ticker = Book<World<u64>>;

/// Makes a call on a channel, and records it as actor 0's.
fn make(ticker: &mut Ticker, channel: u32, call: ChanCall<u64>) -> Result<ChanReply<u64>>
    ensures { ticker.new.opening ≡ ticker.old.opening }
{
    let receipt = ticker.take(0, 0, RowCall { channel, call })?;
    Ok(receipt.reply)
}

/// Makes a call on channel 0, the broadcast.
fn prices(ticker: &mut Ticker, call: BCall<u64>) -> Result<BReply<u64>>
    ensures { ticker.new.opening ≡ ticker.old.opening }
{
    match make(ticker, 0, ChanCall::B(call))? {
        ChanReply::B(reply) => Ok(reply),
        reply => bail!("no reply of a broadcast: {reply:?}"),
    }
}

/// Makes a call on channel 1, the watch.
fn last(ticker: &mut Ticker, call: WCall<u64>) -> Result<WReply<u64>>
    ensures { ticker.new.opening ≡ ticker.old.opening }
{
    match make(ticker, 1, ChanCall::W(call))? {
        ChanReply::W(reply) => Ok(reply),
        reply => bail!("no reply of a watch: {reply:?}"),
    }
}

/// Receives until the channel is closed.
fn read_rest(rt: &impl Print, ticker: &mut Ticker, receiver: u32) -> Result<()>
    ensures { ticker.new.opening ≡ ticker.old.opening }
{
    for _ in 0..u64::MAX {
        match prices(ticker, BCall::TryRecv(receiver))?.received() {
            Ok(price) => println!(rt; "receiver {receiver} gets {price}")?,
            Err(TryRecvError::Lagged(missed)) => {
                println!(rt; "receiver {receiver} lagged and missed {missed}")?;
            }
            Err(TryRecvError::Closed) => {
                println!(rt; "receiver {receiver} is at the end")?;
                break;
            }
            Err(error) => return Err(error.into()),
        }
    }
    Ok(())
}

/// Prints the call that led to the debugger's place, and the channels as they are there.
fn show(rt: &impl Print, debugger: &Debugger<u64>, receiver: u32) -> Result<()> {
    let place = debugger.place();
    if let Some(entry) = debugger.entry(place.saturating_sub(1)) {
        println!(rt; "call {place} of {}: {:?}", debugger.len(), entry.call.call)?;
    }
    if let Some(Chan::Broadcast(prices)) = debugger.state().channel(0) {
        let (unread, lag) = (prices.unread(receiver), prices.lag(receiver));
        println!(rt; "receiver {receiver} there: unread {unread:?}, lag {lag:?}")?;
        println!(rt; "oldest retained: {:?}", prices.window(0))?;
    }
    if let Some(Chan::Watch(last)) = debugger.state().channel(1) {
        println!(rt; "last price told: {}", last.value())?;
    }
    Ok(())
}

/// Sends three prices to two receivers, and then drops the sender. One receiver receives each price at once. The other receives
/// none here, and its number is returned.
fn trade(rt: &impl Print, ticker: &mut Ticker) -> Result<u32>
    ensures { ticker.new.opening ≡ ticker.old.opening }
{
    // Each channel is opened with sender 0 and receiver 1.
    let slow = prices(ticker, BCall::Subscribe(0))?.made()?;
    for price in [101, 102, 103] {
        let receivers = prices(ticker, BCall::Send(0, price))?.sent()?;
        last(ticker, WCall::Send(0, price))?.sent()?;
        let received = prices(ticker, BCall::TryRecv(1))?.received()?;
        println!(rt; "price {price} goes to {receivers}, and receiver 1 gets {received}")?;
    }
    prices(ticker, BCall::DropHandle(0))?.dropped()?;
    Ok(slow)
}

fn main(rt: HostRuntime) -> Result<()> {
    let alloc = rt.alloc();
    let specs = vec![in alloc; Spec::Broadcast(2), Spec::Watch(100)]?;
    let mut ticker = Book::open(alloc, open(alloc, &specs)?)?;
    let slow = trade(&rt, &mut ticker)?;
    read_rest(&rt, &mut ticker, slow)?;

    let mut debugger = Debugger::of_book(specs, ticker);
    let lagging = Cond::Lagging {
        channel: 0,
        handle: u64::from(slow),
    };
    match debugger.back_to(&lagging) {
        Some(_) => show(&rt, &debugger, slow),
        None => bail!("no receiver lagged"),
    }
}

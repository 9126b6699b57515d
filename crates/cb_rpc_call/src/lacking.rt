//! Methods of Bitcoin Core's daemon that the node can't answer.
ghost use Rattle.std.specs.Prelude.{◌≡◌};
ghost use Rattle.std.specs.List.{list_any};
ghost use Rattle.std.specs.Str.{bytes_eq};
ghost use Rattle.cb_rpc_call.specs.Lacking.{lacking_in, lacking_names};
ghost use Rattle.cb_rpc_call.specs.declared.fault.Lacking.TheVariants as lackings;

use crate::fault::Lacking;

/// What a method of Bitcoin Core's daemon needs that the node doesn't have; `None` for any other
/// name.
pub(crate) fn lacking(name: &str) -> Option<Lacking>
    ensures { result ≡ lacking_in name.now }
{
    if needs_wallet(name) {
        Some(Lacking::Wallet)
    } else if needs_disk(name) {
        Some(Lacking::Disk)
    } else if needs_scripts(name) {
        Some(Lacking::Scripts)
    } else if needs_mining(name) {
        Some(Lacking::Mining)
    } else {
        None
    }
}

/// Whether it needs a wallet.
fn needs_wallet(name: &str) -> bool
    ensures { result ≡ list_any (bytes_eq name.now) (lacking_names lackings.Wallet) }
{
    matches!(
        name,
        "getnewaddress"
            | "getrawchangeaddress"
            | "getaddressinfo"
            | "getaddressesbylabel"
            | "getbalance"
            | "getbalances"
            | "getunconfirmedbalance"
            | "getreceivedbyaddress"
            | "sendtoaddress"
            | "sendmany"
            | "send"
            | "sendall"
            | "listunspent"
            | "lockunspent"
            | "listlockunspent"
            | "createwallet"
            | "loadwallet"
            | "unloadwallet"
            | "listwallets"
            | "listwalletdir"
            | "getwalletinfo"
            | "backupwallet"
            | "restorewallet"
            | "importprivkey"
            | "importaddress"
            | "importdescriptors"
            | "dumpprivkey"
            | "dumpwallet"
            | "signmessage"
            | "signrawtransactionwithwallet"
            | "fundrawtransaction"
            | "walletcreatefundedpsbt"
            | "walletprocesspsbt"
            | "walletpassphrase"
            | "walletlock"
            | "encryptwallet"
            | "keypoolrefill"
            | "listtransactions"
            | "listsinceblock"
            | "gettransaction"
            | "abandontransaction"
            | "bumpfee"
            | "rescanblockchain"
            | "settxfee"
            | "generatetoaddress"
    )
}

/// Whether it needs blocks and indexes on a disk.
fn needs_disk(name: &str) -> bool
    ensures { result ≡ list_any (bytes_eq name.now) (lacking_names lackings.Disk) }
{
    matches!(
        name,
        "pruneblockchain"
            | "gettxoutsetinfo"
            | "dumptxoutset"
            | "loadtxoutset"
            | "scantxoutset"
            | "scanblocks"
            | "getblockfilter"
            | "getblockstats"
            | "getchaintxstats"
            | "getindexinfo"
            | "gettxoutproof"
            | "verifychain"
            | "savemempool"
            | "importmempool"
            | "preciousblock"
            | "invalidateblock"
            | "reconsiderblock"
    )
}

/// Whether it needs scripts, witnesses or fees.
fn needs_scripts(name: &str) -> bool
    ensures { result ≡ list_any (bytes_eq name.now) (lacking_names lackings.Scripts) }
{
    matches!(
        name,
        "estimatesmartfee"
            | "estimaterawfee"
            | "createrawtransaction"
            | "combinerawtransaction"
            | "signrawtransactionwithkey"
            | "decodescript"
            | "createmultisig"
            | "createpsbt"
            | "combinepsbt"
            | "decodepsbt"
            | "finalizepsbt"
            | "submitpackage"
            | "getdescriptorinfo"
            | "deriveaddresses"
            | "validateaddress"
    )
}

/// Whether it needs templates of blocks.
fn needs_mining(name: &str) -> bool
    ensures { result ≡ list_any (bytes_eq name.now) (lacking_names lackings.Mining) }
{
    matches!(
        name,
        "getblocktemplate"
            | "getmininginfo"
            | "getnetworkhashps"
            | "prioritisetransaction"
            | "generateblock"
            | "generatetodescriptor"
    )
}

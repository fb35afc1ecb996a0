//! The texts that all pictures share.

/// The style sheet, the pattern for unused capacity, and the background.
pub(crate) const STYLE: &str = r#"<style>
svg{font:12px ui-sans-serif,system-ui,"Segoe UI","DejaVu Sans",Helvetica,Arial,sans-serif;fill:#1d2330}
.paper{fill:#fff}
.title{font-size:17px;font-weight:600}
.sum{fill:#5b6472}
.b{cursor:pointer}
.b text{pointer-events:none}
.b .n{fill:#1d2330;fill-opacity:.55}
.thin>text{display:none}
.brief .n{display:none}
.b rect{stroke:#fff;stroke-width:1}
.b:hover>rect{stroke:#1d2330}
.b.hit>rect{fill:#8a2be2!important;fill-opacity:.75}
.b.hit>text{fill:#fff}
.b.past>rect{fill-opacity:.45}
.k0 rect{fill:#f4a259}.k1 rect{fill:#f6bd60}.k2 rect{fill:#f7cf7a}.k3 rect{fill:#ef8f5a}
.k4 rect{fill:#f28482}.k5 rect{fill:#eab069}.k6 rect{fill:#e9c46a}.k7 rect{fill:#f0a07c}
.k8 rect{fill:#e8998d}.k9 rect{fill:#f2c078}.k10 rect{fill:#efdc9b}.k11 rect{fill:#f5b78f}
.root rect{fill:#d9dee7}
.spare rect{fill:url(#spare)}
.same rect{fill:#eceff3}
.b.full>text,.b.full .n{fill:#fff;fill-opacity:1}
.warn{fill:#b3261e}
@media(max-width:480px){.sum,.warn{font-size:8px}}
.b.warned>rect{fill:#ffd9d4;stroke:#b3261e;stroke-width:2}
.tool{cursor:pointer;fill:#3b5bdb}
@media(prefers-color-scheme:dark){.paper{fill:#14171d}svg{fill:#e7eaf0}.sum{fill:#9aa3b2}.tool{fill:#8ea2ff}.b text{fill:#1d2330}.b rect{stroke:#14171d}.root text,.root rect{fill:#1d2330}.root rect{fill:#aab3c2}}
</style>
<defs><pattern id="spare" width="6" height="6" patternUnits="userSpaceOnUse" patternTransform="rotate(45)"><rect width="6" height="6" style="fill:#dfe4ea;stroke:none"/><rect width="2.5" height="6" style="fill:#c2cad4;stroke:none"/></pattern></defs>
<rect class="paper" width="100%" height="100%"/>
"#;

/// The labels `Find` and `Whole`, which the script shows and makes clickable.
pub(crate) const TOOLS: &str =
    r#"<svg width="100%" overflow="visible"><text class="tool find" x="100%" dx="-8" y="22" text-anchor="end" style="display:none">Find</text><text class="tool back" x="100%" dx="-48" y="22" text-anchor="end" style="display:none">Whole</text></svg>
"#;

/// The legend of the colours of a change, in a line of its own at the bottom.
pub(crate) const LEGEND: &str =
    r#"<svg width="100%" overflow="visible"><text class="sum" x="8" y="100%" dy="-10"><tspan style="fill:#1d5fbf">shrank</tspan><tspan dx="8">same</tspan><tspan dx="8" style="fill:#d62828">grew</tspan></text></svg>
"#;

/// The style of the lines of a history, the beginning of its chart, and the chart's top and bottom.
pub(crate) const CHART: &str = r#"<style>
.line{stroke-width:2;stroke-linecap:round}
.line:hover{stroke-width:4}
.line text{stroke:none}
.l0,.edge{stroke:#8a93a2}.l0{stroke-width:5}.l0:hover{stroke-width:7}.edge{stroke-opacity:.4}
.l1{stroke:#2f7fd6}.l2{stroke:#e0701a}.l3{stroke:#2a9d55}.l4{stroke:#d8394a}
.l5{stroke:#8f5fd6}.l6{stroke:#a8741a}.l7{stroke:#d6459f}.l8{stroke:#1a98a6}
circle{fill:#8a93a2}
</style>
<svg x="1%" y="60" width="98%" height="150" overflow="visible">
<line class="edge" x2="100%"/><line class="edge" x2="100%" y1="150" y2="150"/>
"#;

/// The title of the picture of the change below the chart of a history.
pub(crate) const CHANGE: &str = "From the first to the last";

/// The script and the end of the document. A viewer that runs no script shows the same boxes.
pub(crate) const CLOSING: &str = r#"<script><![CDATA[
(function(){
var svg=document.currentScript.ownerSVGElement,page=svg.ownerSVGElement||svg,all=[].slice.call(svg.querySelectorAll('.b')),rows=[].slice.call(page.querySelectorAll('.row')),lines=rows.concat([].slice.call(page.querySelectorAll('.title,.say,.warn'))),title=svg.querySelector('.title'),say=svg.querySelector('.say'),back=svg.querySelector('.back'),find=svg.querySelector('.find'),first=say.textContent,was=first;
function units(b,a){return Math.round(parseFloat(b.getAttribute(a))*1e4)}
function key(b){return b.querySelector('title').textContent.split('\n')[0]}
function above(b,z){return b.l<=z.l&&b.r>=z.r&&b.d<z.d}
function path(z){return all.filter(function(b,i){return i>0&&(b===z||above(b,z))}).map(key).join(';')||'all'}
function short(s){var c=Array.from(s);return c.length>160?c.slice(0,60).join('')+'..'+c.slice(-98).join(''):s}
function tell(b){return short(path(b))+'  \u00b7  '+b.querySelector('title').textContent.split('\n').slice(1).join('  \u00b7  ')}
function room(t){return page.getBoundingClientRect().right-t.getBoundingClientRect().left-(t===title?104:16)}
function squeeze(t){t.style.fontSize='';var most=room(t),long=t.getComputedTextLength();
if(most>0&&long>most)t.style.fontSize=parseFloat(getComputedStyle(t).fontSize)*most/long+'px'}
function shorten(t){t.style.fontSize='';var n=t.lastChild,c=n.all=n.all||Array.from(n.textContent),most,long,half;n.textContent=c.join('');
most=room(t);long=n.getComputedTextLength();half=Math.max(20,Math.floor(c.length*(most-t.getComputedTextLength()+long)/long)-4>>1);
if(most>0&&c.length>2*half+2)n.textContent=c.slice(0,half).join('')+'..'+c.slice(-half).join('')}
function write(s){say.textContent=s;squeeze(say)}
all.forEach(function(b){var t=b.querySelector('text').firstChild;b.t=t.nodeType===3?t:{data:''};b.k=b.t.data;b.l=units(b,'x');b.r=b.l+units(b,'width');b.d=+b.getAttribute('y')});
all.sort(function(a,b){return a.l-b.l||a.d-b.d});
function zoom(z){
if(!z)return;
all.forEach(function(b){var inside=b.l>=z.l&&b.r<=z.r&&b.d>=z.d,over=above(b,z);
b.style.display=inside||over?'':'none';b.classList.toggle('past',over);
b.setAttribute('x',over?'0%':(b.l-z.l)/(z.r-z.l)*100+'%');b.setAttribute('width',over?'100%':(b.r-b.l)/(z.r-z.l)*100+'%')});
back.style.display=z===all[0]?'none':'';fit()}
function label(b){var room=b.room,t=b.querySelector('text'),n=b.k.length,long,cut;
if(t.getComputedTextLength()+16<=room)return{thin:false,brief:false,key:b.k};
long=n?t.getSubStringLength(0,n):0;
if(long+8<=room)return{thin:false,brief:true,key:b.k};
cut=Math.min(n-1,Math.ceil(n*(room-16)/long));
while(cut>0&&t.getSubStringLength(0,cut)+16>room)cut--;
if(cut>0&&b.k.charCodeAt(cut-1)>>10===54)cut--;
return{thin:cut<1,brief:true,key:b.k.slice(0,cut)+'..'}}
function fit(){var wide;
all.map(function(b){return b.querySelector('rect').getBoundingClientRect().width}).forEach(function(w,i){all[i].room=w;all[i].classList.toggle('thin',w<24)});
wide=all.filter(function(b){return b.room>=24});
wide.forEach(function(b){b.classList.remove('brief');b.t.data=b.k});
wide.map(label).forEach(function(m,i){var b=wide[i];b.t.data=m.key;b.classList.toggle('thin',m.thin);b.classList.toggle('brief',m.brief)});
rows.forEach(shorten);lines.forEach(squeeze)}
function mark(q){var n=0,last=0;
all.forEach(function(b){var hit=q&&key(b).toLowerCase().indexOf(q)>=0;b.classList.toggle('hit',!!hit);if(hit&&b.l>=last){n+=b.r-b.l;last=b.r}});
was=q?'"'+q+'" and below: '+(n/1e4).toFixed(2)+'% of all':first;write(was)}
function ask(){var q=prompt('Part of a key','');if(q!==null)mark(q.toLowerCase())}
svg.addEventListener('click',function(e){var b=e.target.closest('.b');if(b)zoom(b);else if(e.target===back)zoom(all[0]);else if(e.target===find)ask()});
svg.addEventListener('mouseover',function(e){var b=e.target.closest('.b');write(b?tell(b):was)});
document.addEventListener('keydown',function(e){if(e.key==='Escape'){zoom(all[0]);mark('')}else if(e.key==='/'){e.preventDefault();ask()}});
find.style.display='';window.addEventListener('resize',fit);fit();
})();
]]></script>
</svg>
"#;
